//! GUIDs.
#![tactic(auto)]

ghost use Rattle.std.specs.Prelude.{◌≡◌, ◌<◌, ℕ, List, length, All};
ghost use Rattle.uh_base.specs.Guid.{bytes_of, guid_of, IsGuid};
ghost use Rattle.uh_base.specs.declared.guid.Guid.{Guid as AnyGuid};

/// A GUID by its fields, of which `d4` has the last eight bytes, the first of them as its greatest.
#[derive(Clone, Copy, Debug, PartialEq, Eq)]
pub struct Guid {
    pub d1: u32,
    pub d2: u16,
    pub d3: u16,
    pub d4: u64,
}

impl Guid {
    ghost use Rattle.std.specs.Prelude.{◌≡◌};
    ghost use Rattle.uh_base.specs.Guid.{read_of, same_guid, bytes_of, guid_of};

    /// Reads a GUID's text: 32 hexadecimal digits, the form with hyphens, that form in braces, and that form behind
    /// `urn:uuid:`, of either case. None exactly where `uuid` refuses the text.
    pub fn read(text: &str) -> Option<Guid>
        ensures { result ≡ read_of text.now }
    {
        match uuid::Uuid::parse_str(text) {
            Ok(id) => {
                let (d1, d2, d3, rest) = id.as_fields();
                Some(Guid {
                    d1,
                    d2,
                    d3,
                    d4: u64::from_be_bytes(rest),
                })
            }
            Err(_) => None,
        }
    }

    /// Whether it is the same GUID, by its fields.
    pub fn is_same(&self, other: &Guid) -> bool
        ensures { result ≡ same_guid self.now other.now }
    {
        self.d1 == other.d1 && self.d2 == other.d2 && self.d3 == other.d3 && self.d4 == other.d4
    }

    /// The sixteen bytes in memory: the first three fields with the least byte first, the rest in order.
    #[tactic(auto, unfolding(crate::specs::Guid::bytes_of))]
    pub fn to_bytes(&self) -> [u8; 16]
        ensures { result ≡ bytes_of self.now }
    {
        let [a0, a1, a2, a3] = self.d1.to_le_bytes();
        let [b0, b1] = self.d2.to_le_bytes();
        let [c0, c1] = self.d3.to_le_bytes();
        let [e0, e1, e2, e3, e4, e5, e6, e7] = self.d4.to_be_bytes();
        [
            a0, a1, a2, a3, b0, b1, c0, c1, e0, e1, e2, e3, e4, e5, e6, e7,
        ]
    }

    /// The GUID of sixteen bytes in memory.
    pub fn from_bytes(bytes: &[u8; 16]) -> Guid
        ensures value { result ≡ guid_of bytes.now }
        ensures back { bytes_of result ≡ bytes.now }
    {
        let [
            a0,
            a1,
            a2,
            a3,
            b0,
            b1,
            c0,
            c1,
            e0,
            e1,
            e2,
            e3,
            e4,
            e5,
            e6,
            e7,
        ] = *bytes;
        Guid {
            d1: u32::from_le_bytes([a0, a1, a2, a3]),
            d2: u16::from_le_bytes([b0, b1]),
            d3: u16::from_le_bytes([c0, c1]),
            d4: u64::from_be_bytes([e0, e1, e2, e3, e4, e5, e6, e7]),
        }
    }
}

/// A law: a GUID and its sixteen bytes in memory give each other back.
#[tactic(auto, using(crate::proofs::GuidLemmas::guid_again, crate::proofs::GuidLemmas::bytes_again))]
pub fn guids_read_back()
    ensures guid { (guid : AnyGuid) → IsGuid guid → guid_of (bytes_of guid) ≡ guid }
    ensures bytes { (bytes : List ℕ) → length bytes ≡ 16 → All (λ byte. byte < 256) bytes → bytes_of (guid_of bytes) ≡ bytes }
{}
