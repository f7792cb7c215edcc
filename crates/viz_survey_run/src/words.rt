ghost use Rattle.std.specs.Prelude.{◌≡◌, ◌⊎◌, [], ◌∷◌, MatchOption, map, codes, string_bytes};
ghost use Rattle.viz_survey_run.specs.Words.{Asks, AskNothing, IsAbout, cap_of};

use viz_replies::CERT_MOST;
use viz_run::number_of;
use viz_tables::LIST_MOST;

/// What is asked about a job file and a second file.
#[derive(Clone, Copy)]
pub enum Request {
    /// At which widths each rule of a list holds, within so many turns.
    Table(u64),
    /// How much of a file of certificates still stands.
    Kept,
    /// A file of certificates, made of one that was, within so many turns.
    Renew(u64),
}

impl Request {
    /// The most bytes that the second file may have.
    pub fn cap(self) -> usize
        ensures { result ≡ cap_of self }
    {
        match self {
            Request::Table(_) => LIST_MOST,
            _ => CERT_MOST,
        }
    }
}

/// What the words ask for, with the names of both files.
#[derive(Clone, Copy)]
pub struct Command<'a> {
    pub job: &'a str,
    pub other: &'a str,
    pub request: Request,
}

/// What is asked about these files, if both have names.
fn about<'a>(job: &'a str, other: &'a str, request: Request) -> Option<Command<'a>>
    ensures { MatchOption result ((job.now ≡ [])
        ⊎ (other.now ≡ [])) (IsAbout job.now other.now request) }
{
    if job.is_empty() || other.is_empty() {
        return None;
    }
    Some(Command {
        job,
        other,
        request,
    })
}

/// What `table JOB LIST TURNS` asks for.
fn table_of<'a>(job: &'a str, list: &'a str, turns: &str) -> Option<Command<'a>>
    ensures { MatchOption result (AskNothing (codes "table" ∷ job.now ∷ list.now ∷ turns.now ∷ []))
        (Asks (codes "table" ∷ job.now ∷ list.now ∷ turns.now ∷ [])) }
{
    match number_of(turns) {
        Some(turns) => about(job, list, Request::Table(turns)),
        None => None,
    }
}

/// What `renew JOB CERT TURNS` asks for.
fn renew_of<'a>(job: &'a str, cert: &'a str, turns: &str) -> Option<Command<'a>>
    ensures { MatchOption result (AskNothing (codes "renew" ∷ job.now ∷ cert.now ∷ turns.now ∷ []))
        (Asks (codes "renew" ∷ job.now ∷ cert.now ∷ turns.now ∷ [])) }
{
    match number_of(turns) {
        Some(turns) => about(job, cert, Request::Renew(turns)),
        None => None,
    }
}

/// What four words ask for.
fn table_or_renew_of<'a>(
    verb: &str,
    job: &'a str,
    other: &'a str,
    turns: &str,
) -> Option<Command<'a>>
    ensures { MatchOption result (AskNothing (verb.now ∷ job.now ∷ other.now ∷ turns.now ∷ []))
        (Asks (verb.now ∷ job.now ∷ other.now ∷ turns.now ∷ [])) }
{
    if verb == "table" {
        return table_of(job, other, turns);
    }
    if verb == "renew" {
        return renew_of(job, other, turns);
    }
    None
}

/// What three words ask for.
fn kept_of<'a>(verb: &str, job: &'a str, cert: &'a str) -> Option<Command<'a>>
    ensures { MatchOption result (AskNothing (verb.now ∷ job.now ∷ cert.now ∷ []))
        (Asks (verb.now ∷ job.now ∷ cert.now ∷ [])) }
{
    if verb == "kept" {
        return about(job, cert, Request::Kept);
    }
    None
}

/// What the words ask for, if they are of a form. It takes no memory.
pub fn command_of(words: &[String]) -> Option<Command<'_>>
    ensures { MatchOption result (AskNothing (map string_bytes words.now))
        (Asks (map string_bytes words.now)) }
{
    match words {
        [verb, job, other, turns] => table_or_renew_of(
            verb.as_str(),
            job.as_str(),
            other.as_str(),
            turns.as_str(),
        ),
        [verb, job, cert] => kept_of(verb.as_str(), job.as_str(), cert.as_str()),
        _ => None,
    }
}
