// Some values of a frame, stored side by side in a table.
ghost use Rattle.std.specs.Prelude.{◌≡◌, ◌+◌, ◌≤◌, length};
ghost use Rattle.blocks.specs.Stored.{written};

// The values of `row` from place `at` on.
pub fn store<const N: usize>(x: &mut [f32; 384], at: usize, row: [f32; N])
    requires { (at + N ≤ 384) × (length x.old ≡ 384) }
    ensures { x.new ≡ written x.old at row.entry }
{
    for k in 0..N {
        x[at + k] = row[k];
    }
}
