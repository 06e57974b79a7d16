use anyhow::{Result, bail};
use lx_node::Fault;
use lx_text::{cluster_after, cluster_before, length, word_after, word_before};
use std::alloc::Global;

/// What a call goes over.
#[derive(Clone, Copy)]
pub(crate) enum Unit {
    Cluster,
    Word,
}

impl Unit {
    /// The unit with this sign.
    pub(crate) fn of(sign: &str) -> Result<Unit> {
        match sign {
            "c" => Ok(Unit::Cluster),
            "w" => Ok(Unit::Word),
            _ => bail!("a sign of no unit: {sign}"),
        }
    }

    fn after(self, text: &str, at: u32) -> Result<u32, Fault> {
        match self {
            Unit::Cluster => cluster_after(text, at),
            Unit::Word => word_after(text, at),
        }
    }

    fn before(self, text: &str, at: u32) -> Result<u32, Fault> {
        match self {
            Unit::Cluster => cluster_before(text, at),
            Unit::Word => word_before(text, at),
        }
    }
}

/// Where calls stop that go over the text unit by unit, first to its end, and then back to its start.
pub(crate) fn stops(alloc: Global, unit: Unit, text: &str) -> Result<String> {
    let mut told = String::new(alloc);
    tell_forward(unit, text, &mut told)?;
    told.push('|')?;
    tell_back(unit, text, &mut told)?;
    Ok(told)
}

/// The stops on the way to the end. There are no more of them than code units, since each call goes over one at least.
fn tell_forward(unit: Unit, text: &str, told: &mut String) -> Result<()> {
    let end = length(text);
    let mut at = 0;
    for _ in 0..end {
        if at < end {
            at = unit.after(text, at)?;
            write!(told, "{at} ")?;
        }
    }
    Ok(())
}

/// The stops on the way back to the start.
fn tell_back(unit: Unit, text: &str, told: &mut String) -> Result<()> {
    let end = length(text);
    let mut at = end;
    for _ in 0..end {
        if 0 < at {
            at = unit.before(text, at)?;
            write!(told, " {at}")?;
        }
    }
    Ok(())
}
