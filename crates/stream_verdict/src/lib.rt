// The verdict on the film of the last run.
#![tactic(auto)]

ghost use Rattle.std.specs.Prelude.{◌≡◌};
ghost use Rattle.stream_words.specs.Words.{stream_in};
ghost use Rattle.stream_verdict.specs.Film.{verdict_of, verdict_number};

use stream_words::Words;

// What can be said of the film of the last run.
#[derive(Clone, Copy)]
pub enum Verdict {
    Running,
    Blank,
    Gaps,
    Complete,
}

// What can be said of the film of the last run.
pub fn film_verdict(s: &Words) -> Verdict
    ensures { result ≡ verdict_of (stream_in s.now) }
{
    if s[stream_words::STREAMING] != 0 {
        return Verdict::Running;
    }
    if s[stream_words::RAN] == 0 {
        return Verdict::Blank;
    }
    let handed = s[stream_words::HANDED];
    if handed == 0 {
        return Verdict::Blank;
    }
    if handed == s[stream_words::ACCEPTED] {
        return Verdict::Complete;
    }
    Verdict::Gaps
}

// The number of a verdict.
impl From<Verdict> for u32 {
    ghost from_gives = { λ v n. n ≡ verdict_number v };

    fn from(v: Verdict) -> u32 {
        match v {
            Verdict::Running => 0,
            Verdict::Blank => 1,
            Verdict::Gaps => 2,
            Verdict::Complete => 3,
        }
    }
}
