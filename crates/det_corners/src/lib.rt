// No code: det.rs's own exponential, where the library's differs from it, and that no f32 shows it.
#![tactic(auto)]
