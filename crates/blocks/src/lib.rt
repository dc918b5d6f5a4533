// Laws of loops that go by blocks of frames; no code.
#![tactic(auto)]
