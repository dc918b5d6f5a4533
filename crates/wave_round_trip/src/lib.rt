// The theorems about files: what reading gives of what writing wrote, and which files are read. There
// is no code here.
#![tactic(auto)]
