use crate::members::{long_at, number_at, text_at};
use serde_json::Value;
use std::alloc::{AllocError, Global};
use test_scribe::Fault;
use viz_base::{List, MOST_PIXELS, MOST_SIZE};
use viz_replies::{
    Answer, Question, Reply, Screen, Sections, reply_to, reply_to_gen, reply_to_trial,
};

/// A text in quotes, as JSON writes it.
fn in_quotes(alloc: Global, text: &str) -> Result<String, AllocError> {
    Value::String(String::from_str(alloc, text)?).to_string(alloc)
}

/// The kind of a reply and its output.
fn told(alloc: Global, reply: &Reply) -> Result<String, Fault> {
    match str::from_utf8(reply.output.as_slice()) {
        Ok(output) => line(alloc, reply.answer, output),
        Err(_) => Err(Fault::NoCase),
    }
}

/// A kind of reply.
fn kind(alloc: Global, answer: Answer) -> Result<String, Fault> {
    Ok(format!(in alloc; "[\"{answer:?}\"]")?)
}

/// A kind of reply and an output.
fn line(alloc: Global, answer: Answer, output: &str) -> Result<String, Fault> {
    let output = in_quotes(alloc, output)?;
    Ok(format!(in alloc; "[\"{answer:?}\",{output}]")?)
}

/// What is replied to a question about the job of a case.
fn reply(alloc: Global, case: &Value, question: &Question) -> Result<Reply, Fault> {
    let job = text_at(case, 1)?;
    Ok(reply_to(alloc, job.as_bytes(), question)?)
}

/// The height of a case's screen, where one is told.
fn height(case: &Value) -> Result<Option<u32>, Fault> {
    match case.get(4) {
        Some(_) => Ok(Some(number_at(case, 4)?)),
        None => Ok(None),
    }
}

/// A screen, if pages can be laid out there.
fn screen_of(w: u32, s: u32, h: Option<u32>) -> Result<Screen, Fault> {
    if w <= MOST_PIXELS && s <= MOST_SIZE && h.unwrap_or(0) <= MOST_PIXELS {
        Ok(Screen { w, s, h })
    } else {
        Err(Fault::NoCase)
    }
}

/// The screen of a case, at which pages can be laid out.
fn screen(case: &Value) -> Result<Screen, Fault> {
    screen_of(number_at(case, 2)?, number_at(case, 3)?, height(case)?)
}

/// What is replied to `lay`, given the job and the screen.
fn lay(alloc: Global, case: &Value) -> Result<Reply, Fault> {
    reply(alloc, case, &Question::Lay(screen(case)?))
}

/// What is replied to `check`, given the job of a case and a certificate.
fn check_cert(alloc: Global, case: &Value, cert: &[u8]) -> Result<Reply, Fault> {
    let cert = List::from_slice(alloc, cert)?;
    reply(alloc, case, &Question::Check(cert))
}

/// What is replied to `check`, given the job and the certificate.
fn check(alloc: Global, case: &Value) -> Result<Reply, Fault> {
    check_cert(alloc, case, text_at(case, 2)?.as_bytes())
}

/// A reply to `prove`; of a certificate what is replied to `check`, given it.
fn checked(alloc: Global, case: &Value, found: Reply) -> Result<Reply, Fault> {
    match found.answer {
        Answer::Done => check_cert(alloc, case, found.output.as_slice()),
        _ => Ok(found),
    }
}

/// What is replied to `prove`, given the job and the turns.
fn prove(alloc: Global, case: &Value) -> Result<Reply, Fault> {
    reply(alloc, case, &Question::Prove(long_at(case, 2)?))
}

/// What is replied to `prove`, given the job and the turns; of a certificate what is replied to `check`, given it.
fn search(alloc: Global, case: &Value) -> Result<Reply, Fault> {
    let found = prove(alloc, case)?;
    checked(alloc, case, found)
}

/// The kind of what is replied to `prove`, given the job and the turns.
pub fn finding(alloc: Global, case: &Value) -> Result<String, Fault> {
    let found = prove(alloc, case)?;
    kind(alloc, found.answer)
}

/// What is replied to `gen`, given the seed and the sections.
fn generate(alloc: Global, case: &Value, sections: Sections) -> Result<Reply, Fault> {
    Ok(reply_to_gen(alloc, long_at(case, 1)?, sections)?)
}

/// What is replied to `trial`, given the seed, the sections and the turns.
fn try_out(alloc: Global, case: &Value, sections: Sections) -> Result<Reply, Fault> {
    let (seed, turns) = (long_at(case, 1)?, long_at(case, 3)?);
    Ok(reply_to_trial(alloc, seed, sections, turns)?)
}

/// What is replied to `gen` or `trial`, or nothing for too many sections.
fn make(alloc: Global, name: &str, case: &Value) -> Result<Option<Reply>, Fault> {
    match Sections::within(long_at(case, 2)?) {
        Some(sections) if name == "gen" => Ok(Some(generate(alloc, case, sections)?)),
        Some(sections) => Ok(Some(try_out(alloc, case, sections)?)),
        None => Ok(None),
    }
}

/// What is replied to a question about the job that a case has.
fn ask(alloc: Global, name: &str, case: &Value) -> Result<Reply, Fault> {
    match name {
        "lay" => lay(alloc, case),
        "check" => check(alloc, case),
        "prove" => search(alloc, case),
        _ => Err(Fault::NoCase),
    }
}

/// What is replied to a case, or nothing for too many sections.
fn replied(alloc: Global, case: &Value) -> Result<Option<Reply>, Fault> {
    match text_at(case, 0)? {
        name @ ("gen" | "trial") => make(alloc, name, case),
        name => Ok(Some(ask(alloc, name, case)?)),
    }
}

/// The kind and the output of what is replied to a case, or null for too many sections.
pub fn answer(alloc: Global, case: &Value) -> Result<String, Fault> {
    match replied(alloc, case)? {
        Some(reply) => told(alloc, &reply),
        None => Ok(String::from_str(alloc, "null")?),
    }
}
