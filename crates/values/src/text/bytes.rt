// Texts from bytes, and back.
ghost use Rattle.std.specs.Prelude.{◌≡◌, [], length, nat_le};
ghost use Rattle.arrays.specs.Items.{items};
ghost use Rattle.refusals.specs.Refusals.{answered, meant};
ghost use Rattle.refusals.specs.declared.Refusal.TheVariants.{TextTooLong};
ghost use Rattle.values.specs.Means.{text_means};

use super::Text;
use arrays::ArrayVec;
use refusals::Refusal;

// The text of some bytes, which are at most 32.
impl TryFrom<&[u8]> for Text {
    type Error = Refusal;

    ghost try_from_gives = { λ b r. meant text_means r ≡ answered (nat_le (length b.now) 32) b.now TextTooLong };

    fn try_from(bytes: &[u8]) -> Result<Text, Refusal> {
        ArrayVec::from_slice(0, bytes)
            .map(Text::from)
            .map_err(|_| Refusal::TextTooLong)
    }
}

// The text of the bytes in a vector.
impl From<ArrayVec<u8, 32>> for Text {
    ghost from_gives = { λ b t. text_means t ≡ items b };

    fn from(bytes: ArrayVec<u8, 32>) -> Text {
        Text { bytes }
    }
}

// The text of no bytes.
impl Default for Text {
    ghost is_default = { λ t. text_means t ≡ [] };

    fn default() -> Text {
        Text {
            bytes: ArrayVec::new(0),
        }
    }
}

impl Text {
    pub fn as_bytes(&self) -> &[u8]
        ensures { result.now ≡ text_means self.now }
    {
        self.bytes.as_slice()
    }
}
