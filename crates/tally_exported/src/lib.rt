// The theorem about lists of the score calls that hosts make. There is no code here.
#![tactic(auto)]
