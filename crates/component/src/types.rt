// The four types of components.
ghost use Rattle.std.specs.Prelude.{◌≡◌, ◌≤◌, true};
ghost use Rattle.component.specs.Types.{id_fits};
ghost use Rattle.component.specs.Kinds.{octet_of, Typing};

use element::{Reason, Refusal};

// A type, by its octet.
#[derive(Clone, Copy, Debug, PartialEq, Eq)]
pub enum Kind {
    Invoke = 0xE9,
    Result = 0xEA,
    Error = 0xEB,
    Reject = 0xEC,
}

impl TryFrom<u8> for Kind {
    type Error = Refusal;

    ghost try_from_gives = { Typing };

    #[tactic(auto, unfolding(crate::specs::Types::typed))]
    fn try_from(octet: u8) -> Result<Self, Refusal> {
        match octet {
            0xE9 => Ok(Kind::Invoke),
            0xEA => Ok(Kind::Result),
            0xEB => Ok(Kind::Error),
            0xEC => Ok(Kind::Reject),
            _ => Err(Reason::Type.at(0)),
        }
    }
}

impl Kind {
    pub fn octet(self) -> u8
        ensures { result ≡ octet_of self }
    {
        self as u8
    }

    // Whether a component of this type can have so many ID octets.
    #[tactic(auto, unfolding(crate::specs::Types::id_fits, crate::specs::Types::format_of))]
    pub(crate) fn fits(self, count: usize) -> bool
        ensures fits { result ≡ id_fits (octet_of self) count }
        ensures few { result ≡ true → count ≤ 2 }
    {
        match self {
            Kind::Invoke => count <= 2,
            Kind::Result => count == 1,
            Kind::Error => count == 1,
            Kind::Reject => count <= 1,
        }
    }
}
