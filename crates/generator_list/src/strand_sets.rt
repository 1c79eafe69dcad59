// Sets of strands as bits: a drawing has at most 8 strands.
ghost use Rattle.std.specs.Prelude.{◌≡◌, ℕ, ◌<◌};
ghost use Rattle.std.specs.List.{All};
ghost use Rattle.obd_base.specs.Lists.{has};
ghost use Rattle.generator_list.specs.Search.{in_set, with_strand};

use obd_base::StrandNo;

// Whether a strand is in the set.
pub(crate) fn is_in_set(set: u8, strand: StrandNo) -> bool
    requires { strand < 8 }
    ensures { result ≡ in_set set strand }
{
    (set >> strand.number()) & 1 == 1
}

// The set with one strand more.
pub(crate) fn set_with(set: u8, strand: StrandNo) -> u8
    requires { strand < 8 }
    ensures { result ≡ with_strand set strand }
{
    set | (1 << strand.number())
}

// The set of some strands.
pub(crate) fn set_of(strands: &[StrandNo]) -> u8
    requires { All (λ strand. strand < 8) strands.now }
    ensures { (strand : ℕ) → in_set result strand ≡ has strands.now strand }
{
    let mut set = 0;
    for strand in strands {
        set = set_with(set, *strand);
    }
    set
}
