#[cfg(test)]
mod tests {
    use custody::custodian::{Custodian, PutRefusal, TakeRefusal};
    use custody::page::BytePage;
    use custody::register::NumberRegister;
    use std::process::Abort;

    // The most units of a box.
    const MOST: u64 = 100_000_000_000;

    // The runtime and the custodian are passed on as they are: a struct of both would be taken apart in each function.

    // The first box that is not served has no room, and nothing can be put there but nothing.
    fn no_box<C: Custodian>(rt: &impl Abort, custody: &mut C, box_number: usize) {
        assert_eq!(rt; custody.limit(box_number), 0);
        assert_eq!(rt; custody.held(box_number), 0);
        assert_eq!(rt; custody.put(box_number, 0), Ok(()));
        assert_eq!(rt; custody.put(box_number, 1), Err(PutRefusal::OverLimit));
        assert_eq!(rt; custody.take(box_number, 1), Err(TakeRefusal::TooFewUnits));
        assert_eq!(rt; custody.limit(usize::MAX), 0);
    }

    // A box over a stored number that is too large.
    fn full_box<C: Custodian>(rt: &impl Abort, custody: &mut C, box_number: usize) {
        assert_eq!(rt; custody.limit(box_number), MOST);
        assert_eq!(rt; custody.held(box_number), MOST);
        assert_eq!(rt; custody.take(box_number, 0), Ok(()));
        assert_eq!(rt; custody.put(box_number, 1), Err(PutRefusal::OverLimit));
        assert_eq!(rt;
            custody.put(box_number, u64::MAX),
            Err(PutRefusal::OverLimit)
        );
        assert_eq!(rt;
            custody.take(box_number, MOST + 1),
            Err(TakeRefusal::TooFewUnits)
        );
    }

    // Up to the limit and down again, from an empty box.
    fn moves<C: Custodian>(rt: &impl Abort, custody: &mut C, box_number: usize) {
        assert_eq!(rt;
            custody.put(box_number, u64::MAX),
            Err(PutRefusal::OverLimit)
        );
        assert_eq!(rt; custody.put(box_number, MOST), Ok(()));
        assert_eq!(rt; custody.put(box_number, 1), Err(PutRefusal::OverLimit));
        assert_eq!(rt; custody.take(box_number, MOST - 7), Ok(()));
        assert_eq!(rt; custody.take(box_number, 8), Err(TakeRefusal::TooFewUnits));
        assert_eq!(rt; custody.held(box_number), 7);
    }

    // Registers and pages have the same edges at other lengths, so the calls are written out for each.
    #[test]
    fn registers_short_and_long(rt: HostRuntime) {
        no_box(&rt, &mut NumberRegister::new(&mut []), 0);
        no_box(&rt, &mut NumberRegister::new(&mut [1 << 63]), 1);
        no_box(&rt, &mut NumberRegister::new(&mut [1 << 63; 511]), 511);
        no_box(&rt, &mut NumberRegister::new(&mut [1 << 63; 512]), 512);
        full_box(&rt, &mut NumberRegister::new(&mut [1 << 63; 511]), 510);
        full_box(&rt, &mut NumberRegister::new(&mut [1 << 63; 600]), 511);
    }

    #[test]
    fn register_past_its_boxes(rt: HostRuntime) {
        let mut memory = [1 << 63; 600];
        let mut register = NumberRegister::new(&mut memory);
        no_box(&rt, &mut register, 512);
        register.clear();
        moves(&rt, &mut register, 511);
        assert_eq!(rt; memory[0], 0);
        assert_eq!(rt; memory[511], 7);
        assert_eq!(rt; memory[512], 1 << 63);
    }

    #[test]
    fn pages_short_and_long(rt: HostRuntime) {
        no_box(&rt, &mut BytePage::new(&mut []), 0);
        no_box(&rt, &mut BytePage::new(&mut [255; 7]), 0);
        no_box(&rt, &mut BytePage::new(&mut [255; 8]), 1);
        no_box(&rt, &mut BytePage::new(&mut [255; 4093]), 511);
        no_box(&rt, &mut BytePage::new(&mut [255; 4096]), 512);
        full_box(&rt, &mut BytePage::new(&mut [255; 8]), 0);
        full_box(&rt, &mut BytePage::new(&mut [255; 4093]), 510);
        full_box(&rt, &mut BytePage::new(&mut [255; 5000]), 511);
    }

    #[test]
    fn page_past_its_boxes(rt: HostRuntime) {
        let mut memory = [255; 5000];
        let mut page = BytePage::new(&mut memory);
        no_box(&rt, &mut page, 512);
        assert_eq!(rt; page.put(511, 0), Ok(()));
        page.clear();
        moves(&rt, &mut page, 511);
        assert_eq!(rt; memory[0], 0);
        assert_eq!(rt; memory[4094], 0);
        assert_eq!(rt; memory[4095], 7);
        assert_eq!(rt; memory[4096], 255);
    }

    // The part of box 511 that is there survives a clear.
    #[test]
    fn page_cut_inside_a_box(rt: HostRuntime) {
        let mut memory = [255; 4093];
        let mut page = BytePage::new(&mut memory);
        assert_eq!(rt; page.take(0, 1), Ok(()));
        assert_eq!(rt; page.held(0), MOST - 1);
        page.clear();
        assert_eq!(rt; memory[4087], 0);
        assert_eq!(rt; memory[4088], 255);
        assert_eq!(rt; memory[4092], 255);
    }

    // 10^11 - 1 is 0x174876E7FF.
    #[test]
    fn highest_byte_first(rt: HostRuntime) {
        let mut memory = [0; 16];
        assert_eq!(rt; BytePage::new(&mut memory).put(1, MOST - 1), Ok(()));
        assert_eq!(rt; memory[7], 0);
        assert_eq!(rt; memory[11], 0x17);
        assert_eq!(rt; memory[12], 0x48);
        assert_eq!(rt; memory[13], 0x76);
        assert_eq!(rt; memory[14], 0xE7);
        assert_eq!(rt; memory[15], 0xFF);
    }
}
