//! All that a net answers, as three numbers.
use comparisons::Outcomes;
use nets::Net;
use refusals::Refusal;
use std::fmt;

const ABSENT: u8 = 255;

/// How many places and steps a net has, and a digest of all its answers.
#[derive(Clone, Copy)]
pub(crate) struct Answers {
    places: u8,
    steps: u16,
    digest: u32,
}

impl fmt::Display for Answers {
    fn fmt<W: fmt::Write>(&self, f: &mut fmt::Formatter<W>) -> fmt::Result {
        let places = self.places;
        let steps = self.steps;
        let digest = self.digest;
        write!(f, "ok {places} {steps} {digest}")
    }
}

/// One more number in a digest; the cast makes smaller what is proved to fit, as it is below 65521.
fn mix(digest: u32, number: u8) -> u32 {
    ((u64::from(digest) * 31 + u64::from(number) + 1) % 65521) as u32
}

/// The answers for one step: its input, and its yields, at two places past the last too.
fn mix_step<N: Net>(net: &N, step: u16, start: u32) -> u32 {
    let mut digest = mix(start, net.input(step).unwrap_or(ABSENT));
    for place in 0..net.places().saturating_add(2) {
        digest = mix(digest, net.yield_at(step, place));
    }
    digest
}

/// A digest of all answers, for two steps past the last too.
fn digest_of<N: Net>(net: &N) -> u32 {
    let steps = net.steps();
    let mut digest = mix(mix(0, net.places()), u8::try_from(steps).unwrap_or(u8::MAX));
    for step in 0..steps.saturating_add(2) {
        digest = mix_step(net, step, digest);
    }
    digest
}

/// What the net of a file answers, or why the file is refused, which is counted.
pub(crate) fn of_file<'a, N: Net + TryFrom<&'a [u8], Error = Refusal> + Drop>(
    file: &'a [u8],
    files: &mut Outcomes,
) -> Result<Answers, Refusal> {
    let read = N::try_from(file);
    files.add(read.is_ok());
    let net = read?;
    Ok(Answers {
        places: net.places(),
        steps: net.steps(),
        digest: digest_of(&net),
    })
}
