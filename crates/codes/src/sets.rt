// Sets of heads, and rows of lost ballots: each is a u32 whose lowest bit is head 0.
ghost use Rattle.std.specs.Prelude.{◌≡◌};
ghost use Rattle.rules.specs.Sizes.{heads_most};
ghost use Rattle.rules.specs.Below.{first};
ghost use Rattle.rules.specs.Heard.{member as member_of, size as size_of, within as within_of};

// Whether head s is in the set.
pub fn member(set: u32, s: u8) -> bool
    ensures { result ≡ member_of s set }
{
    if s < 32 { (set >> s) % 2 == 1 } else { false }
}

// How many heads are in the set.
pub fn size(set: u32) -> u32
    ensures { result ≡ size_of set }
{
    u32::count_ones(set)
}

// The lowest number in the set; 32 where nobody is in it.
pub fn lowest(set: u32) -> u32
    ensures { result ≡ first heads_most (λ s. member_of s set) }
{
    u32::trailing_zeros(set)
}

// Whether all heads in the set are below n. In 64 bits, since n may be 32; from 64 up all are.
pub fn within(set: u32, n: u32) -> bool
    ensures { result ≡ within_of n set }
{
    if n < 64 {
        u64::from(set) < 1u64 << n
    } else {
        true
    }
}
