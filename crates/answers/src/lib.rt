// What a call answers where it gives no result: the refusals by name, and the test of one condition.
#![tactic(auto)]

ghost use Rattle.std.specs.Prelude.{◌≡◌, ◌∷◌, [], ltb};
ghost use Rattle.answers.specs.Answers.{number_of};
ghost use Rattle.answers.specs.Results.{Judges};

// The refusals, in the order of their numbers, 1 to 21. Each is named after its condition. The number 9 is unused: no call refuses a plant in several components.
#[derive(Clone, Copy, Debug, PartialEq, Eq, Hash)]
pub enum Refusal {
    MapMissing,
    MapUndefined,
    FieldMissing,
    FieldRedundant,
    ValueOutOfRange,
    EndOutOfRange,
    SelfLink,
    BytesRemain,
    TrailBufferShort,
    SwitchOutOfRange,
    TrailDiffers,
    StatesShort,
    SearchUnsound,
    SearchEnded,
    ListingBufferShort,
    SpareTooLarge,
    BuyingPageUnfit,
    ConsoleOutOfRange,
    SetOutOfRange,
    SwitchOutsideSet,
}

impl Refusal {
    pub fn number(self) -> u8
        ensures { result ≡ number_of self }
    {
        match self {
            Refusal::MapMissing => 1,
            Refusal::MapUndefined => 2,
            Refusal::FieldMissing => 3,
            Refusal::FieldRedundant => 4,
            Refusal::ValueOutOfRange => 5,
            Refusal::EndOutOfRange => 6,
            Refusal::SelfLink => 7,
            Refusal::BytesRemain => 8,
            Refusal::TrailBufferShort => 10,
            Refusal::SwitchOutOfRange => 11,
            Refusal::TrailDiffers => 12,
            Refusal::StatesShort => 13,
            Refusal::SearchUnsound => 14,
            Refusal::SearchEnded => 15,
            Refusal::ListingBufferShort => 16,
            Refusal::SpareTooLarge => 17,
            Refusal::BuyingPageUnfit => 18,
            Refusal::ConsoleOutOfRange => 19,
            Refusal::SetOutOfRange => 20,
            Refusal::SwitchOutsideSet => 21,
        }
    }
}

// Refused with this if the condition holds.
pub fn judge(holds: bool, k: Refusal) -> Result<(), Refusal>
    ensures { Judges ((number_of k, holds) ∷ []) result }
{
    if holds {
        return Err(k);
    }
    Ok(())
}

// A lent buffer with this length, where so many bytes are to be laid: refused with this if it is shorter.
pub fn judge_room(size: usize, room: usize, k: Refusal) -> Result<(), Refusal>
    ensures { Judges ((number_of k, ltb room size) ∷ []) result }
{
    judge(room < size, k)
}
