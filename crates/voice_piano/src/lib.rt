// The grand piano of render/seq.rs: `piano_note`. A real string is stiff, so that its partials stretch sharp. Each
// partial has its own decay, the high ones die first and the bright attack mellows, and a level by the hammer's
// strike, an eighth along the string, which a louder note opens; a detuned pair of strings beats slowly, which is the
// shimmer. Low notes ring for seconds and high ones die fast. It draws for the 6 milliseconds of the hammer's thump
// and then nothing.
#![tactic(auto)]

mod hammer; // hammer.rt: the blow on a piano string, and its partials
mod piano; // piano.rt: the piano
mod wires; // wires.rt: the strings of a piano note as they sound

pub use hammer::{Blow, Partial, Partials};
pub use piano::{PianoState, piano_note};
pub use wires::{Pair, PartialOut, WiresOut};
