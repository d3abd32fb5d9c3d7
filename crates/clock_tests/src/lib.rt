// Runs of the clock policy.
#![tactic(auto)]

#[cfg(test)]
mod tests {
    use clock::Clock;
    use policy::{Granted, Policy, PolicyFault};

    // The clock is renumbered before it rises, with the committing task counted.
    #[test]
    fn renumbers_at_the_top(rt: HostRuntime) {
        let mut clock = Clock::new(u32::MAX);
        assert_eq!(rt; clock.begin(0), Ok(Granted));
        assert_eq!(rt; clock.begin(1), Ok(Granted));
        assert_eq!(rt; clock.write(1, 5), Ok(Granted));
        assert_eq!(rt; clock.commit(1), Ok(Granted));
        assert_eq!(rt; clock.read(0, 5), Err(PolicyFault::ReadBarred(5)));
        assert_eq!(rt; clock.clock(), 2);
    }

    // Two read versions are counted, one of them the committing task's.
    #[test]
    fn counts_the_committing_task(rt: HostRuntime) {
        let mut clock = Clock::new(u32::MAX - 1);
        assert_eq!(rt; clock.begin(0), Ok(Granted));
        assert_eq!(rt; clock.begin(1), Ok(Granted));
        assert_eq!(rt; clock.write(1, 5), Ok(Granted));
        assert_eq!(rt; clock.commit(1), Ok(Granted));
        assert_eq!(rt; clock.begin(2), Ok(Granted));
        assert_eq!(rt; clock.write(0, 6), Ok(Granted));
        assert_eq!(rt; clock.commit(0), Ok(Granted));
        assert_eq!(rt; clock.read(2, 5), Ok(Granted));
        assert_eq!(rt; clock.read(2, 6), Err(PolicyFault::ReadBarred(6)));
        assert_eq!(rt; clock.clock(), 3);
    }

    // With nothing written no number changes, even at the top.
    #[test]
    fn a_read_only_commit_raises_nothing(rt: HostRuntime) {
        let mut clock = Clock::new(u32::MAX);
        assert_eq!(rt; clock.begin(0), Ok(Granted));
        assert_eq!(rt; clock.read(0, 63), Ok(Granted));
        assert_eq!(rt; clock.commit(0), Ok(Granted));
        assert_eq!(rt; clock.clock(), u32::MAX);
    }

    // A task that is behind may read what wasn't written since, and commit if it wrote nothing.
    #[test]
    fn behind_and_read_only(rt: HostRuntime) {
        let mut clock = Clock::new(0);
        assert_eq!(rt; clock.begin(0), Ok(Granted));
        assert_eq!(rt; clock.read(0, 5), Ok(Granted));
        assert_eq!(rt; clock.begin(1), Ok(Granted));
        assert_eq!(rt; clock.write(1, 5), Ok(Granted));
        assert_eq!(rt; clock.is_behind(0), Ok(false));
        assert_eq!(rt; clock.commit(1), Ok(Granted));
        assert_eq!(rt; clock.is_behind(0), Ok(true));
        assert_eq!(rt; clock.read(0, 6), Ok(Granted));
        assert_eq!(rt; clock.commit(0), Ok(Granted));
    }

    // One that wrote something is refused, and its transaction has ended.
    #[test]
    fn behind_and_written(rt: HostRuntime) {
        let mut clock = Clock::new(0);
        assert_eq!(rt; clock.begin(0), Ok(Granted));
        assert_eq!(rt; clock.read(0, 5), Ok(Granted));
        assert_eq!(rt; clock.begin(1), Ok(Granted));
        assert_eq!(rt; clock.write(1, 5), Ok(Granted));
        assert_eq!(rt; clock.commit(1), Ok(Granted));
        assert_eq!(rt; clock.write(0, 6), Ok(Granted));
        assert_eq!(rt; clock.has_written(0, 6), Ok(true));
        assert_eq!(rt; clock.commit(0), Err(PolicyFault::CommitRefused));
        assert_eq!(rt; clock.commit(0), Err(PolicyFault::Unfit));
    }

    #[test]
    fn unfit_calls(rt: HostRuntime) {
        let mut clock = Clock::new(0);
        assert_eq!(rt; clock.begin(8), Err(PolicyFault::Unfit));
        assert_eq!(rt; clock.begin(7), Ok(Granted));
        assert_eq!(rt; clock.begin(7), Err(PolicyFault::Unfit));
        assert_eq!(rt; clock.read(7, 63), Ok(Granted));
        assert_eq!(rt; clock.read(7, 64), Err(PolicyFault::Unfit));
        assert_eq!(rt; clock.write(7, 63), Ok(Granted));
        assert_eq!(rt; clock.write(7, 64), Err(PolicyFault::Unfit));
        assert_eq!(rt; clock.has_written(7, 63), Ok(true));
        assert_eq!(rt; clock.has_written(7, 64), Err(PolicyFault::Unfit));
        assert_eq!(rt; clock.is_behind(8), Err(PolicyFault::Unfit));
        assert_eq!(rt; clock.abort(6), Err(PolicyFault::Unfit));
        assert_eq!(rt; clock.abort(7), Ok(Granted));
        assert_eq!(rt; clock.commit(7), Err(PolicyFault::Unfit));
    }
}
