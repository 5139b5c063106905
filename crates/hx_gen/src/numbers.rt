ghost use Rattle.std.specs.Prelude.{◌≡◌, ◌<◌, ◌^◌};
ghost use Rattle.hx_gen.specs.Numbers.{next_number, random_number};

/// The number after `x`.
pub(crate) fn next_number(x: u64) -> u64
    requires { x < 2 ^ 31 }
    ensures value { result ≡ next_number x }
    ensures within { result < 2 ^ 31 }
{
    (1_103_515_245 * x + 12_345) % 2_147_483_648
}

/// The number after `count` steps from the first.
#[tactic(auto, using(crate::proofs::NumberLemmas::next_is))]
pub(crate) fn random_number(first: u64, count: u64) -> u64
    requires { first < 2 ^ 31 }
    ensures value { result ≡ random_number first count }
    ensures within { result < 2 ^ 31 }
{
    let mut x = first;
    for _step in 0..count {
        x = next_number(x);
    }
    x
}
