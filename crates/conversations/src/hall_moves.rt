//! The moves of a hall in memory, as lines of a case describe them.
use anyhow::{Result, bail};
use halls::Move;

// A number that is counted from 1 in a case, as one from 0.
fn parse_client(text: &str) -> Result<usize> {
    let number: usize = text.parse()?;
    Ok(number.saturating_sub(1))
}

// A move of a client, to whose number a count of bytes is added in some.
fn parse_client_move(name: &str, rest: &str) -> Result<Move> {
    if let Some((client, count)) = rest.split_once(' ') {
        let client = parse_client(client)?;
        let count = count.parse()?;
        return match name {
            "sends" => Ok(Move::Sends(client, count)),
            "takes" => Ok(Move::Takes(client, count)),
            _ => bail!("no such move of a count: {name}"),
        };
    }
    let client = parse_client(rest)?;
    match name {
        "flows" => Ok(Move::Flows(client)),
        "goes" => Ok(Move::GoesOn(client)),
        "late" => Ok(Move::IsLate(client)),
        "breaks" => Ok(Move::Breaks(client)),
        _ => bail!("no such move of a client: {name}"),
    }
}

/// The move that a text describes.
pub fn parse_move(text: &str) -> Result<Move> {
    match text.split_once(' ') {
        Some((name, rest)) => parse_client_move(name, rest),
        None => match text {
            "comes" => Ok(Move::Comes),
            "fails" => Ok(Move::Fails),
            _ => bail!("no such move: {text}"),
        },
    }
}
