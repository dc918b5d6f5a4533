// SplitMix64's published vectors: the first five draws of seed 1234567 in decimal and of seed 0 in
// hexadecimal, one a line.
#![tactic(auto)]

use rng::Rng;
use std::io;

fn main(rt: HostRuntime) -> io::Result<()> {
    let mut rng = Rng::new(1234567);
    for _ in 0..5 {
        let draw = rng.next_u64();
        println!(rt; "{}", draw.value)?;
        rng = draw.rng;
    }
    let mut rng = Rng::new(0);
    for _ in 0..5 {
        let draw = rng.next_u64();
        println!(rt; "{:016x}", draw.value)?;
        rng = draw.rng;
    }
    Ok(())
}
