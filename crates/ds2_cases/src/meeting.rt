//! A gate at which one group waits for another.

/// Which group is held until another was handed in, and by how many workers.
#[derive(Clone, Copy)]
pub(crate) struct Meeting {
    pub(crate) held: u64,
    pub(crate) awaited: u64,
    pub(crate) workers: u32,
}

impl Meeting {
    /// The meeting that a line tells by three numbers; None where it tells none.
    pub(crate) fn of(line: &str) -> Option<Meeting> {
        let (held, numbers) = line.split_once(' ')?;
        let (awaited, workers) = numbers.split_once(' ')?;
        Some(Meeting {
            held: held.parse().ok()?,
            awaited: awaited.parse().ok()?,
            workers: workers.parse().ok()?,
        })
    }
}
