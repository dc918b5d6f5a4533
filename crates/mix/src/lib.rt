// The frames of a score, and how they gain a note: the sum at the end of `render_seq` of render/seq.rs.
#![tactic(auto)]

mod stages; // stages.rt: the loop over the frames of a stage

ghost use Rattle.std.specs.Prelude.{◌≡◌, ◌+◌, ◌≤◌, length};
ghost use Rattle.dsl.specs.Domain.{Rate, Frames};
ghost use Rattle.mix.specs.Mix.{silence, mixed, mixed_at};

use crate::stages::mix_stage;
use dsl::Adsr;
use envelope::Stage::{Attack, Decay, Release, Sustain};

// Plus zeros.
pub fn clear(out: &mut [f32])
    ensures { out.new ≡ silence (length out.old) }
{
    out.fill(0.0);
}

// Adds a note's samples to the frames from its start on, stage by stage of its envelope. `len` is the note's
// whole length.
fn mix(out: &mut [f32], note: &[f32], env: Adsr, len: usize, rate: u32, gain: f32)
    requires rate { Rate rate }
    requires note_in_bounds { length note.now ≤ length out.old }
    requires frames { Frames (length note.now) }
    requires frames_2 { Frames len }
    ensures { out.new ≡ mixed note.now env len rate gain out.old }
{
    let n = note.len();
    let ends = envelope::adsr(env, len, n, rate);
    let rel = ends.rel_start;
    let (attack, decay, sustain) = (ends.attack, ends.decay, ends.sustain);
    mix_stage(Attack, out, note, 0, attack, env, rel, rate, gain);
    mix_stage(Decay, out, note, attack, decay, env, rel, rate, gain);
    mix_stage(Sustain, out, note, decay, sustain, env, rel, rate, gain);
    mix_stage(Release, out, note, sustain, n, env, rel, rate, gain);
}

// Adds a note that starts at frame `start`. The mixer is lent the frames from there on, so that no
// frame before it can change.
pub fn mix_at(
    out: &mut [f32],
    start: usize,
    note: &[f32],
    env: Adsr,
    len: usize,
    rate: u32,
    gain: f32,
)
    requires rate { Rate rate }
    requires note_in_bounds { start + length note.now ≤ length out.old }
    requires frames { Frames (length note.now) }
    requires frames_2 { Frames len }
    ensures { out.new ≡ mixed_at start note.now env len rate gain out.old }
{
    mix(&mut out[start..], note, env, len, rate, gain);
}
