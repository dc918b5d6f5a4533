// The theorem about the planning call and the score call. There is no code here.
#![tactic(auto)]
