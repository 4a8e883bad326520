//! Random steps of a world, of which most are steps that it may take, and most speak of what was done a short time before.
use crate::draws::Draws;
use crate::plain::Plain;
use crate::server::MAKER;
use lease_world::Step;

/// The longest step of time but for those to an end, in milliseconds.
const SHORT_MS: u64 = 8;
/// The number of clients that make most of the steps.
const BUSY: usize = 4;
/// The number of the newest sent calls that most steps name.
const LATEST: usize = 5;
/// The number of the newest objects that most steps name.
const NEWEST: usize = 3;

/// A random step of a world. Where no call was sent, few steps name one.
pub(crate) fn drawn_step(draws: &mut Draws, plain: &Plain) -> Step {
    let kinds = if plain.sent_count() == 0 { 20 } else { 32 };
    match draws.below(kinds) {
        0..=3 => Step::At {
            moment: moment(draws, plain),
        },
        4..=5 => Step::Make,
        6..=9 => Step::Register {
            client: client(draws, plain),
            number: object(draws, plain),
        },
        10..=14 => Step::Due {
            client: client(draws, plain),
        },
        15 => Step::Release {
            client: client(draws, plain),
            number: object(draws, plain),
        },
        16 => Step::Ack {
            make: make(draws, plain),
        },
        17 => Step::Ask {
            client: client(draws, plain),
            asked: duration(draws),
        },
        18 => Step::Tick,
        19..=25 => Step::Deliver {
            call: call(draws, plain),
        },
        26..=30 => Step::Answer {
            call: call(draws, plain),
        },
        _ => Step::Fail {
            call: call(draws, plain),
        },
    }
}

/// A moment: a short time later, at an end or just before one, or an earlier one.
fn moment(draws: &mut Draws, plain: &Plain) -> u64 {
    let now = plain.moment;
    let end = match draws.below(16) {
        0 => return now.saturating_sub(1),
        1 => return 1 << 62,
        2 => plain.server.now.saturating_add(draws.below(2 * SHORT_MS)),
        3..=8 => until(draws, plain),
        _ => return now.saturating_add(draws.below(SHORT_MS)),
    };
    end.saturating_sub(draws.below(2)).max(now)
}

/// The end of a client's time, as it reckons, or of its lease.
fn until(draws: &mut Draws, plain: &Plain) -> u64 {
    let client = client(draws, plain);
    if draws.below(2) == 0 {
        let end = plain.server.lease_of(client).unwrap_or(0);
        return u64::try_from(end).unwrap_or(0);
    }
    match plain.clients.get(usize::from(client)) {
        Some(its) => its.until(),
        None => 0,
    }
}

/// A return: one that was made, or the next, or the first number that is none's.
fn make(draws: &mut Draws, plain: &Plain) -> u64 {
    match draws.below(32) {
        0 => 1 << 63,
        1 => plain.server.return_count() as u64,
        _ => draws.any_below(plain.server.return_count()),
    }
}

/// A client: most often one of few, at times the number after the last.
fn client(draws: &mut Draws, plain: &Plain) -> u8 {
    let count = plain.clients.len();
    let number = match draws.below(64) {
        0 => count as u64,
        1..=20 => draws.any_below(count),
        _ => draws.any_below(count.min(BUSY)),
    };
    number.min(255) as u8
}

/// An object: most often one that was made last, at times any that was or will be made.
fn object(draws: &mut Draws, plain: &Plain) -> i64 {
    let made = plain.server.return_count();
    let back = match draws.below(32) {
        0 => return -1,
        1 => return MAKER,
        2 => 0,
        3..=5 => draws.any_below(made).saturating_add(1),
        _ => draws.any_below(made.min(NEWEST)).saturating_add(1),
    };
    let place = (made as u64).saturating_sub(back);
    i64::try_from(place).unwrap_or(0).saturating_add(MAKER + 1)
}

/// A sent call: most often one that was sent last, at times the number after the last.
fn call(draws: &mut Draws, plain: &Plain) -> u64 {
    let sent = plain.sent_count();
    let back = match draws.below(64) {
        0 => 0,
        1..=10 => draws.any_below(sent).saturating_add(1),
        _ => draws.any_below(sent.min(LATEST)).saturating_add(1),
    };
    (sent as u64).saturating_sub(back)
}

/// A duration for which a client asks from now on.
fn duration(draws: &mut Draws) -> i64 {
    match draws.below(16) {
        0 => 0,
        1 => -1,
        2 => i64::MIN,
        3 => i64::MAX,
        4 => 1 << 40,
        5 => (1 << 40) + 1,
        _ => draws.below(64) as i64,
    }
}
