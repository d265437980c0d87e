// Which bytes are a name.
ghost use Rattle.std.specs.Prelude.{◌≡◌, [], ◌∷◌};
ghost use Rattle.refusals.specs.Refusals.{answered, meant};
ghost use Rattle.refusals.specs.declared.Refusal.TheVariants.{BadName};
ghost use Rattle.keys.specs.KeyMeans.{name_means};
ghost use Rattle.keys.specs.NameBytes.{name_start, shaped, reserved_words, one_of, lawful_name};

use super::Name;
use arrays::ArrayVec;
use refusals::Refusal;
use tokens::byte::is_word;

// Whether a name can begin with the byte.
fn is_name_start(b: u8) -> bool
    ensures { result ≡ name_start b }
{
    b.is_ascii_alphabetic() || b == b'_'
}

fn is_shaped(bytes: &[u8]) -> bool
    ensures { result ≡ shaped bytes.now }
{
    let Some((first, rest)) = bytes.split_first() else {
        return false;
    };
    is_name_start(*first) && rest.iter().all(|b| is_word(*b))
}

// Whether the bytes are a word of an instruction.
pub fn is_reserved(bytes: &[u8]) -> bool
    ensures { result ≡ one_of bytes.now reserved_words }
{
    keywords::find(bytes).is_some()
}

// Judges bytes that are to be a name.
impl TryFrom<&[u8]> for Name {
    type Error = Refusal;

    ghost try_from_gives = { λ b r. meant name_means r ≡ answered (lawful_name b.now) b.now BadName };

    fn try_from(bytes: &[u8]) -> Result<Name, Refusal> {
        if !is_shaped(bytes) || is_reserved(bytes) {
            return Err(Refusal::BadName);
        }
        let bytes = ArrayVec::from_slice(0, bytes).map_err(|_| Refusal::BadName)?;
        Ok(Name { bytes })
    }
}

impl Name {
    // The name `_`, for slots that are not in use.
    pub fn placeholder() -> Name
        ensures { name_means result ≡ 95 ∷ [] }
    {
        let mut bytes = ArrayVec::new(0);
        bytes.push(b'_').unwrap();
        Name { bytes }
    }

    pub fn as_bytes(&self) -> &[u8]
        ensures { result.now ≡ name_means self.now }
    {
        self.bytes.as_slice()
    }
}
