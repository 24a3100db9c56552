#[cfg(test)]
mod tests {
    use custody::custodian::{Custodian, PutRefusal};
    use custody::page::BytePage;
    use custody::register::NumberRegister;
    use custody::split::SplitCustodian;
    use std::process::Abort;

    // The runtime and the custodian are passed on as they are: a struct of both would be taken apart in each function.

    // Units of yen and of shares, put into the same account's boxes 64 and 67.
    fn both_kinds<C: Custodian>(rt: &impl Abort, custody: &mut C) {
        custody.clear();
        assert_eq!(rt; custody.put(64, 5), Ok(()));
        assert_eq!(rt; custody.put(67, 7), Ok(()));
        assert_eq!(rt; custody.held(64), 5);
        assert_eq!(rt; custody.held(67), 7);
        assert_eq!(rt; custody.limit(512), 0);
    }

    #[test]
    fn yen_here_and_the_rest_there(rt: HostRuntime) {
        let mut numbers = [0; 512];
        let mut bytes = [0; 4096];
        both_kinds(
            &rt,
            &mut SplitCustodian::new(NumberRegister::new(&mut numbers), BytePage::new(&mut bytes)),
        );
        assert_eq!(rt; numbers[64], 5);
        assert_eq!(rt; numbers[67], 0);
        assert_eq!(rt; bytes[67 * 8 + 7], 7);
        assert_eq!(rt; bytes[64 * 8 + 7], 0);
    }

    // A split of splits: yen of the first of the first, all else of the second of the second.
    #[test]
    fn nested(rt: HostRuntime) {
        let mut yen = [9; 512];
        let mut unused = [9; 4096];
        let mut also_unused = [9; 512];
        let mut others = [9; 4096];
        let first = SplitCustodian::new(NumberRegister::new(&mut yen), BytePage::new(&mut unused));
        let second = SplitCustodian::new(
            NumberRegister::new(&mut also_unused),
            BytePage::new(&mut others),
        );
        both_kinds(&rt, &mut SplitCustodian::new(first, second));
        assert_eq!(rt; yen[64], 5);
        assert_eq!(rt; others[67 * 8 + 7], 7);
        assert_eq!(rt; unused[67 * 8 + 7], 0);
        assert_eq!(rt; also_unused[64], 0);
    }

    // A side without memory refuses what is its own, and nothing else.
    #[test]
    fn one_side_without_memory(rt: HostRuntime) {
        let mut bytes = [0; 4096];
        let mut split = SplitCustodian::new(
            NumberRegister::new(&mut []),
            BytePage::new(&mut bytes),
        );
        assert_eq!(rt; split.put(0, 1), Err(PutRefusal::OverLimit));
        assert_eq!(rt; split.put(1, 1), Ok(()));
    }
}
