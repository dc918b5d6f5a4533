// The theorems about the plan of a text score and its listing. There is no code here.
#![tactic(auto)]
