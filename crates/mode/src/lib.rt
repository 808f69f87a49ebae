// The mode in which a text is read: what is allowed beyond the specification.
#![tactic(auto)]

ghost use Rattle.std.specs.Prelude.{◌≡◌};
ghost use Rattle.mode.specs.Modes.{strict, lax, mode_of};

// Five free flags.
#[derive(Clone, Copy)]
pub struct Mode {
    // `/` as OR
    pub slash: bool,
    // imprecise names
    pub imprecise: bool,
    // `+` on GNU names
    pub gnu_plus: bool,
    // deprecated names
    pub deprecated: bool,
    // unknown terms
    pub unknown: bool,
}

impl Mode {
    // The specification, and nothing beyond it.
    pub fn strict() -> Self
        ensures { result ≡ strict }
    {
        Mode {
            slash: false,
            imprecise: false,
            gnu_plus: false,
            deprecated: false,
            unknown: false,
        }
    }

    // All but unknown terms.
    pub fn lax() -> Self
        ensures { result ≡ lax }
    {
        Mode {
            slash: true,
            imprecise: true,
            gnu_plus: true,
            deprecated: true,
            unknown: false,
        }
    }
}

// The mode of five bits: slash 1, imprecise 2, gnu_plus 4, deprecated 8, unknown 16. Higher bits say nothing.
impl From<u8> for Mode {
    ghost from_gives = { λ bits mode. mode ≡ mode_of bits };

    #[tactic(auto, unfolding(crate::specs::Modes::mode_of))]
    fn from(bits: u8) -> Self {
        Mode {
            slash: bits % 2 == 1,
            imprecise: bits / 2 % 2 == 1,
            gnu_plus: bits / 4 % 2 == 1,
            deprecated: bits / 8 % 2 == 1,
            unknown: bits / 16 % 2 == 1,
        }
    }
}
