//! The generator of a drill's numbers.
ghost use Rattle.std.specs.Prelude.{◌≡◌, ◌<◌, ◌^◌};
ghost use Rattle.drill.specs.Generator.{next_state, drawn_with, choice_of, draws_after};

/// The action of a round of a drill.
#[derive(Clone, Copy)]
pub enum Choice {
    /// A call of the first object makes another one.
    Make,
    /// A client takes hold of an object.
    Hold,
    /// A client gives an object up.
    GiveUp,
    /// A client gives an object up strongly, by a number that may be late.
    GiveUpStrongly,
    /// A client renews its lease.
    Renew,
    /// A return is acknowledged.
    Acknowledge,
    /// A client takes hold of an object by a number that may be late.
    HoldLate,
    /// Time passes.
    Pass,
}

/// The numbers that are drawn for a round, each below 2^31, and the generator's state after it.
#[derive(Clone, Copy)]
pub struct Draws {
    /// The number that decides how far the moment goes on.
    pub steps: u64,
    /// The action of the round.
    pub choice: Choice,
    /// Which client asks.
    pub client: u64,
    /// Which object is named.
    pub object: u64,
    /// The number that decides how late a number is.
    pub late: u64,
    /// The state afterwards.
    pub state: u64,
}

/// The state that follows a state.
fn next_state(state: u64) -> u64
    ensures { result ≡ next_state state }
{
    state
        .wrapping_mul(6364136223846793005)
        .wrapping_add(1442695040888963407)
}

/// Returns the number that is drawn with a state.
fn drawn_with(state: u64) -> u64
    ensures value { result ≡ drawn_with state }
    ensures small { result < 2 ^ 31 }
{
    state >> 33
}

/// The choice that a number from 0 to 7 makes.
fn choice_of(number: u64) -> Choice
    ensures { result ≡ choice_of number }
{
    match number {
        0 => Choice::Make,
        1 => Choice::Hold,
        2 => Choice::GiveUp,
        3 => Choice::GiveUpStrongly,
        4 => Choice::Renew,
        5 => Choice::Acknowledge,
        6 => Choice::HoldLate,
        _ => Choice::Pass,
    }
}

/// Returns the numbers that are drawn after a state.
#[tactic(auto, unfolding(crate::specs::Generator::draws_after))]
pub fn draws_after(state: u64) -> Draws
    ensures drawn { result ≡ draws_after state }
    ensures steps { result.steps < 2 ^ 31 }
    ensures client { result.client < 2 ^ 31 }
    ensures late { result.late < 2 ^ 31 }
{
    let steps = next_state(state);
    let chosen = next_state(steps);
    let client = next_state(chosen);
    let object = next_state(client);
    let late = next_state(object);
    Draws {
        steps: drawn_with(steps),
        choice: choice_of(drawn_with(chosen) % 8),
        client: drawn_with(client),
        object: drawn_with(object),
        late: drawn_with(late),
        state: late,
    }
}
