#[cfg(test)]
mod tests {
    use rules::refusal::Refusal;
    use rules::value::{applied_value, market_value};

    #[test]
    fn worked_values(rt: HostRuntime) {
        assert_eq!(rt; market_value(1, 15_025, 12_345), Ok(18_548));
        assert_eq!(rt; applied_value(18_548, 50), Ok(17_620));
        assert_eq!(rt; market_value(2, 9_850, 1_000_000), Ok(985_000));
        assert_eq!(rt; applied_value(985_000, 20), Ok(965_300));
        assert_eq!(rt; market_value(3, 1_234, 7), Ok(863));
        assert_eq!(rt; market_value(0, 1, 300), Ok(300));
        assert_eq!(rt; applied_value(300, 0), Ok(300));
    }

    #[test]
    fn value_limits(rt: HostRuntime) {
        assert_eq!(rt;
            market_value(3, 100_000, 100_000_000_000),
            Ok(1_000_000_000_000_000)
        );
        assert_eq!(rt; applied_value(1_000_000_000_000_000, 1_000), Ok(0));
        assert_eq!(rt;
            market_value(4, 100_001, u64::MAX),
            Err(Refusal::WrongAsset)
        );
        assert_eq!(rt; market_value(3, 100_001, 1), Err(Refusal::OutOfRange));
        assert_eq!(rt;
            market_value(0, 1, 100_000_000_001),
            Err(Refusal::OutOfRange)
        );
        assert_eq!(rt;
            applied_value(1_000_000_000_000_001, 0),
            Err(Refusal::OutOfRange)
        );
        assert_eq!(rt; applied_value(0, 1_001), Err(Refusal::OutOfRange));
    }
}
