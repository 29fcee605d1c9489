// A flag of an arc: a bit of its flag word.
ghost use Rattle.std.specs.Prelude.{◌≡◌, ◌^◌, ◌<◌};
ghost use Rattle.network.specs.Limits.{most_cells};
ghost use Rattle.plan.specs.Plan.{bit};

// Is bit c of the word set?
pub fn is_set(word: u64, c: usize) -> bool
    requires { c < most_cells }
    ensures { result ≡ bit word c }
{
    (word >> c) % 2 == 1
}

// The word that has the flag of cell c alone.
pub fn alone(c: usize) -> u64
    requires { c < most_cells }
    ensures { result ≡ 2 ^ c }
{
    1u64 << c
}
