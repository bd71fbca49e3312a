//! Messages from bytes, by the letters of their types.

ghost use Rattle.std.specs.Prelude.{◌≡◌, ◌<◌, ◌+◌, ◌^◌, ℕ, List, length, IfSome, Option, Some};
ghost use Rattle.std.specs.Option.{option_map};
ghost use Rattle.wire_fields.specs.declared.kind.Kind.{Kind};
ghost use Rattle.wire_fields.specs.Wire.{Wire, IsRead, IsSpelled, AreGood, total_width, wire_in};

use crate::checking::check;
use crate::kind::Kind;
use market_types::CodecError;

/// The types of the messages that are read in one place, each with its letter and its fields.
pub trait MessageType: Copy {
    /// What is read.
    type Message;

    /// A message as it is written.
    ghost wire: { Self.Message → Wire };

    /// The message that is written so.
    ghost message: { Wire → Self.Message };

    /// The fields of the type of a letter.
    ghost layout: { ℕ → Option (List Kind) };

    /// The letter of a type.
    ghost letter: { Self → ℕ };

    /// The fields of a type.
    ghost kinds: { Self → List Kind };

    /// The type whose letter stands first.
    fn of_letter(first: u8) -> Option<Self>
        ensures same { IfSome result (λ t. letter t ≡ first) }
        ensures known { option_map kinds result ≡ layout first };

    /// The fields of the type in order.
    fn fields(self) -> &'static [Kind]
        ensures kinds { result.now ≡ kinds self }
        ensures short { 1 + total_width (kinds self) < 2 ^ 64 };

    /// The message of bytes that have the type's length and each field in its range.
    fn read(self, bytes: &[u8]) -> Self::Message
        requires length { length bytes.now ≡ 1 + total_width (kinds self) }
        requires good { AreGood (kinds self) 1 bytes.now }
        ensures { wire result ≡ wire_in (letter self) (kinds self) bytes.now };

    /// The letter of each message tells its fields.
    ghost told: { (m : Self.Message) → layout (wire m).letter ≡ Some (wire m).kinds };

    /// A message comes back from how it is written.
    ghost back: { (m : Self.Message) → message (wire m) ≡ m };
}

/// The message that these bytes are, in one of the types. What it refuses, the first that applies: a letter that no type
/// has, another length than the type's, where 1 is needed of the empty input, and the least offset of a field out of its
/// range.
pub fn decode<T: MessageType>(bytes: &[u8]) -> Result<T::Message, CodecError>
    ensures { IsRead T.wire T.layout bytes.now result }
{
    let Some(first) = bytes.first() else {
        return Err(CodecError::WrongLength(0, 1));
    };
    let Some(kind) = T::of_letter(*first) else {
        return Err(CodecError::UnknownType(*first));
    };
    check(bytes, kind.fields())?;
    Ok(kind.read(bytes))
}

/// Bytes spell one message.
pub fn one_message<T: MessageType>()
    ensures { (bytes : List ℕ) (a b : T.Message) → IsSpelled bytes (T.wire a) → IsSpelled bytes (T.wire b) → a ≡ b }
{}
