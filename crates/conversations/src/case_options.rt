//! How a case is run.
use crate::hall_moves::parse_move;
use anyhow::{Result, bail};
use halls::Move;
use std::alloc::{AllocError, Global};

/// How a case is run once, as README.md says.
#[derive(Drop)]
pub struct CaseOptions {
    pub words: String,
    pub status: u8,
    pub repeat: usize,
    /// The number of connections that come.
    pub connections: usize,
    /// The moves of the hall to which they come, where the command is `host`.
    pub moves: Vec<Move>,
    /// The number of connections that a peer accepts.
    pub peers: usize,
}

impl CaseOptions {
    fn default_options(alloc: Global) -> Result<CaseOptions, AllocError> {
        Ok(CaseOptions {
            words: String::from_str(alloc, "replay http://xcap.example.com/xcap")?,
            status: 0,
            repeat: 1,
            connections: 0,
            moves: Vec::new(alloc),
            peers: 0,
        })
    }

    /// Whether the command is `host`.
    pub fn is_host(&self) -> bool {
        self.words.as_str().starts_with("host ")
    }

    fn set(&mut self, alloc: Global, key: &str, value: &str) -> Result<()> {
        match key {
            "shows" | "only in memory" => {}
            "words" => self.words = String::from_str(alloc, value)?,
            "status" => self.status = value.parse()?,
            "repeat" => self.repeat = value.parse()?,
            "connection" => self.connections = self.connections.saturating_add(1),
            "move" => self.moves.push(parse_move(value)?)?,
            "peer" => self.peers = self.peers.saturating_add(1),
            _ => bail!("no such line: {key}"),
        }
        Ok(())
    }
}

fn parse_options(alloc: Global, paragraph: &str) -> Result<CaseOptions> {
    let mut options = CaseOptions::default_options(alloc)?;
    for line in paragraph.lines() {
        match line.split_once(':') {
            Some((key, value)) => options.set(alloc, key, value.trim())?,
            None => bail!("no value: {line}"),
        }
    }
    Ok(options)
}

/// The options that a text describes, those of one run in each paragraph.
pub fn parse_runs(alloc: Global, text: &str) -> Result<Vec<CaseOptions>> {
    let mut runs = Vec::new(alloc);
    for paragraph in text.split("\n\n") {
        runs.push(parse_options(alloc, paragraph)?)?;
    }
    Ok(runs)
}
