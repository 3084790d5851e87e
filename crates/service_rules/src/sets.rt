// Sets of services: numbers in which each service has a bit. Other bits are no service's, and are in no set that is made here.
ghost use Rattle.std.specs.Prelude.{◌≡◌, ℕ, Bool, cond, ◌≤◌, ◌<◌};
ghost use Rattle.service_rules.specs.Services.{has, set_of};
ghost use Rattle.service_rules.specs.Negotiation.{common};

// The bits of the services.
const TELETEXT_B: u16 = 0x0001;

const VPS: u16 = 0x0400;

const CAPTION_525: u16 = 0x1000;

const WSS_625: u16 = 0x4000;

// Whether a set has a bit.
#[tactic(auto, unfolding(crate::specs::Services::has))]
pub(crate) fn has(set: u16, bit: u16) -> bool
    requires { 0 < bit }
    ensures { result ≡ has set bit }
{
    set / bit % 2 == 1
}

// The bit if the service passes.
fn bit_if(passes: bool, bit: u16) -> u16
    ensures value { result ≡ cond passes bit 0 }
    ensures upper_bound { result ≤ bit }
{
    if passes { bit } else { 0 }
}

// The set of the services whose bits pass.
pub(crate) fn gather<F: Fn(u16) -> bool>(passes: F) -> u16
    requires { (bit : ℕ) → 0 < bit → F.pre passes bit }
    ensures { (p : ℕ → Bool) → ((bit : ℕ) (r : Bool) → F.post passes bit r → r ≡ p bit) → result ≡ set_of (λ s. p s.bit) }
{
    bit_if(passes(TELETEXT_B), TELETEXT_B)
        + (bit_if(passes(VPS), VPS)
            + (bit_if(passes(CAPTION_525), CAPTION_525) + bit_if(passes(WSS_625), WSS_625)))
}

// The services that are in both of two sets.
pub(crate) fn common(a: u16, b: u16) -> u16
    ensures { result ≡ common a b }
{
    gather(|bit| has(a, bit) & has(b, bit))
}
