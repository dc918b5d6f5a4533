// The table of quarter tones: the f32 bits of its 256 entries from q = 0 on, one a line.
#![tactic(auto)]

use std::io;

fn print_entry(rt: &impl Print, q: u32) -> io::Result<()> {
    let bits = quarter_tone::quarter_tone_bits(q);
    println!(rt; "{bits:08x}")
}

fn main(rt: HostRuntime) -> io::Result<()> {
    for q in 0..256 {
        print_entry(&rt, q)?;
    }
    Ok(())
}
