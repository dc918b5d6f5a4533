// The score that draws the most: how many draws a score can make, and a score that makes them. There is no code here.
#![tactic(auto)]
