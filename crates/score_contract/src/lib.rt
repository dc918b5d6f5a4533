// What a score call comes to: specs/ has its frames and its contract. There is no code here.
#![tactic(auto)]
