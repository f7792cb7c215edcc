ghost use Rattle.std.specs.Prelude.{◌≡◌, ◌≢◌, ℕ, [], ◌∷◌, ◌<◌, ◌≤◌, ◌^◌, MatchOption, Some, None, nat_le, ◌&&◌, if◌then◌else◌, map, length, decimal, codes, string_bytes};
ghost use Rattle.viz_run.specs.Words.{Asks, AskNothing};
ghost use Rattle.viz_run.specs.steps.Screens.{AreNoScreen, AreScreen};
ghost use Rattle.viz_replies.specs.declared.question.Sections.{Sections};

use itoa::Buffer;
use viz_base::{MOST_PIXELS, MOST_SIZE};
use viz_replies::{Screen, Sections};

/// What the words ask for, with the names of its files.
#[derive(Clone, Copy)]
pub enum Command<'a> {
    /// The rendering of a job's page at a screen.
    Lay {
        job: &'a str,
        screen: Screen,
    },
    /// A certificate for a job, within so many turns.
    Prove {
        job: &'a str,
        turns: u64,
    },
    /// The verdict on a certificate for a job.
    Check {
        job: &'a str,
        cert: &'a str,
    },
    /// The job that a seed tells.
    Gen {
        seed: u64,
        sections: Sections,
    },
    /// What a search for a certificate of the job that a seed tells comes to, within so many turns.
    Trial {
        seed: u64,
        sections: Sections,
        turns: u64,
    },
}

/// The number that a word spells in decimal, without sign or leading zero. It takes no memory.
pub fn number_of(word: &str) -> Option<u64>
    ensures { MatchOption result ((n : ℕ) → n < 2 ^ 64 → word.now ≢ decimal n)
        (λ n. word.now ≡ decimal n) }
{
    match word.parse::<u64>() {
        Ok(number) => {
            let mut buffer = Buffer::new();
            if buffer.format(number) == word {
                Some(number)
            } else {
                None
            }
        }
        Err(_) => None,
    }
}

/// The number, if it is from 1 to `most`.
fn within(number: u64, most: u32) -> Option<u32>
    ensures { result ≡ (if nat_le 1 number && nat_le number most then Some number else None) }
{
    if number == 0 || u64::from(most) < number {
        None
    } else {
        Some(number as u32)
    }
}

/// The number that a word spells, from 1 to `most`.
fn number_to(word: &str, most: u32) -> Option<u32>
    ensures { MatchOption result ((n : ℕ) → 1 ≤ n → n ≤ most → word.now ≢ decimal n)
        (λ n. (1 ≤ n) × (n ≤ most) × (word.now ≡ decimal n)) }
{
    match number_of(word) {
        Some(number) => within(number, most),
        None => None,
    }
}

/// The screen without a height that two words name.
fn screen_of(width: &str, size: &str) -> Option<Screen>
    ensures { MatchOption result (AreNoScreen (width.now ∷ size.now ∷ []))
        (AreScreen (width.now ∷ size.now ∷ [])) }
{
    let w = number_to(width, MOST_PIXELS)?;
    let s = number_to(size, MOST_SIZE)?;
    Some(Screen { w, s, h: None })
}

/// The screen that three words name.
fn tall_screen_of(width: &str, size: &str, height: &str) -> Option<Screen>
    ensures { MatchOption result (AreNoScreen (width.now ∷ size.now ∷ height.now ∷ []))
        (AreScreen (width.now ∷ size.now ∷ height.now ∷ [])) }
{
    let w = number_to(width, MOST_PIXELS)?;
    let s = number_to(size, MOST_SIZE)?;
    let h = number_to(height, MOST_PIXELS)?;
    Some(Screen { w, s, h: Some(h) })
}

/// How many sections of a generated job a word spells.
fn sections_of(word: &str) -> Option<Sections>
    ensures { MatchOption result ((s : Sections) → word.now ≢ decimal s.count)
        (λ s. word.now ≡ decimal s.count) }
{
    match number_of(word) {
        Some(number) => Sections::within(number),
        None => None,
    }
}

/// What `lay JOB W S` asks for.
fn lay_of<'a>(job: &'a str, width: &str, size: &str) -> Option<Command<'a>>
    ensures { MatchOption result (AskNothing (codes "lay" ∷ job.now ∷ width.now ∷ size.now ∷ []))
        (Asks (codes "lay" ∷ job.now ∷ width.now ∷ size.now ∷ [])) }
{
    if job.is_empty() {
        return None;
    }
    match screen_of(width, size) {
        Some(screen) => Some(Command::Lay { job, screen }),
        None => None,
    }
}

/// What `lay JOB W S H` asks for.
fn tall_lay_of<'a>(job: &'a str, width: &str, size: &str, height: &str) -> Option<Command<'a>>
    ensures { MatchOption result (AskNothing
        (codes "lay" ∷ job.now ∷ width.now ∷ size.now ∷ height.now ∷ []))
        (Asks (codes "lay" ∷ job.now ∷ width.now ∷ size.now ∷ height.now ∷ [])) }
{
    if job.is_empty() {
        return None;
    }
    match tall_screen_of(width, size, height) {
        Some(screen) => Some(Command::Lay { job, screen }),
        None => None,
    }
}

/// What five words ask for.
fn tall_lay_or_none<'a>(
    verb: &str,
    job: &'a str,
    width: &str,
    size: &str,
    height: &str,
) -> Option<Command<'a>>
    ensures { MatchOption result (AskNothing
        (verb.now ∷ job.now ∷ width.now ∷ size.now ∷ height.now ∷ []))
        (Asks (verb.now ∷ job.now ∷ width.now ∷ size.now ∷ height.now ∷ [])) }
{
    if verb == "lay" {
        return tall_lay_of(job, width, size, height);
    }
    None
}

/// What `trial SEED N TURNS` asks for.
fn trial_of<'a>(seed: &str, sections: &str, turns: &str) -> Option<Command<'a>>
    ensures { MatchOption result (AskNothing
        (codes "trial" ∷ seed.now ∷ sections.now ∷ turns.now ∷ []))
        (Asks (codes "trial" ∷ seed.now ∷ sections.now ∷ turns.now ∷ [])) }
{
    let seed = number_of(seed)?;
    let sections = sections_of(sections)?;
    let turns = number_of(turns)?;
    Some(Command::Trial {
        seed,
        sections,
        turns,
    })
}

/// What four words ask for.
fn lay_or_trial_of<'a>(
    verb: &str,
    second: &'a str,
    third: &str,
    fourth: &str,
) -> Option<Command<'a>>
    ensures { MatchOption result (AskNothing (verb.now ∷ second.now ∷ third.now ∷ fourth.now ∷ []))
        (Asks (verb.now ∷ second.now ∷ third.now ∷ fourth.now ∷ [])) }
{
    if verb == "lay" {
        return lay_of(second, third, fourth);
    }
    if verb == "trial" {
        return trial_of(second, third, fourth);
    }
    None
}

/// What `prove JOB TURNS` asks for.
fn prove_of<'a>(job: &'a str, turns: &str) -> Option<Command<'a>>
    ensures { MatchOption result (AskNothing (codes "prove" ∷ job.now ∷ turns.now ∷ []))
        (Asks (codes "prove" ∷ job.now ∷ turns.now ∷ [])) }
{
    if job.is_empty() {
        return None;
    }
    match number_of(turns) {
        Some(turns) => Some(Command::Prove { job, turns }),
        None => None,
    }
}

/// What `check JOB CERT` asks for.
fn check_of<'a>(job: &'a str, cert: &'a str) -> Option<Command<'a>>
    ensures { MatchOption result (AskNothing (codes "check" ∷ job.now ∷ cert.now ∷ []))
        (Asks (codes "check" ∷ job.now ∷ cert.now ∷ [])) }
{
    if job.is_empty() || cert.is_empty() {
        return None;
    }
    Some(Command::Check { job, cert })
}

/// What `gen SEED N` asks for.
fn gen_of<'a>(seed: &str, sections: &str) -> Option<Command<'a>>
    ensures { MatchOption result (AskNothing (codes "gen" ∷ seed.now ∷ sections.now ∷ []))
        (Asks (codes "gen" ∷ seed.now ∷ sections.now ∷ [])) }
{
    let seed = number_of(seed)?;
    let sections = sections_of(sections)?;
    Some(Command::Gen { seed, sections })
}

/// What three words ask for.
fn prove_or_check_or_gen_of<'a>(verb: &str, second: &'a str, third: &'a str) -> Option<Command<'a>>
    ensures { MatchOption result (AskNothing (verb.now ∷ second.now ∷ third.now ∷ []))
        (Asks (verb.now ∷ second.now ∷ third.now ∷ [])) }
{
    if verb == "prove" {
        return prove_of(second, third);
    }
    if verb == "check" {
        return check_of(second, third);
    }
    if verb == "gen" {
        return gen_of(second, third);
    }
    None
}

/// What the words ask for, if they are of a form. It takes no memory.
pub fn command_of(words: &[String]) -> Option<Command<'_>>
    ensures { MatchOption result (AskNothing (map string_bytes words.now))
        (Asks (map string_bytes words.now)) }
{
    match words {
        [verb, job, width, size, height] => tall_lay_or_none(
            verb.as_str(),
            job.as_str(),
            width.as_str(),
            size.as_str(),
            height.as_str(),
        ),
        [verb, second, third, fourth] => lay_or_trial_of(
            verb.as_str(),
            second.as_str(),
            third.as_str(),
            fourth.as_str(),
        ),
        [verb, second, third] => {
            prove_or_check_or_gen_of(verb.as_str(), second.as_str(), third.as_str())
        }
        _ => None,
    }
}
