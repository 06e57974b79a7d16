use thiserror::Error;

/// A read or a write failed. It read or took nothing.
#[derive(Clone, Copy, Debug, Error)]
#[error("input or output failed")]
pub struct Failed;
