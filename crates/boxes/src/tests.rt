// What the links do on examples.
#[cfg(test)]
mod links {
    use super::super::cell::CellLink;
    use super::super::line::LineLink;
    use link::Link;
    use link::echo::echo;
    use link::pair::Pair;
    use link::trim::Trim;
    use std::test::Fail;

    const FIRST_TO_SECOND: Pair = Pair { from: 0, to: 1 };

    const SECOND_TO_FIRST: Pair = Pair { from: 1, to: 0 };

    #[test]
    fn two_trims_over_cells(rt: HostRuntime) -> Result<(), Fail> {
        let mut memory = [9u32; 44];
        let mut area = [5u32; 7];
        let mut cells = CellLink::new(2, 10, &mut memory);
        let mut inner = Trim::new(&mut cells);
        let mut outer = Trim::new(&mut inner);
        assert_eq!(rt; outer.longest(), 6);
        assert_eq!(rt;
            echo(&mut outer, FIRST_TO_SECOND, &[0, 0, 7, 0], &mut area)?,
            4
        );
        assert_eq!(rt; area[2], 7);
        assert_eq!(rt; area[3], 0);
        assert_eq!(rt; area[4], 5);
        assert_eq!(rt; outer.waiting(FIRST_TO_SECOND)?, false);
        Ok(())
    }

    #[test]
    fn two_trims_over_a_line(rt: HostRuntime) -> Result<(), Fail> {
        let mut memory = [9u32; 24];
        let mut area = [5u32; 6];
        let mut line = LineLink::new(2, 10, &mut memory);
        let mut inner = Trim::new(&mut line);
        let mut outer = Trim::new(&mut inner);
        assert_eq!(rt; echo(&mut outer, SECOND_TO_FIRST, &[0, 0], &mut area)?, 2);
        assert_eq!(rt; area[1], 0);
        assert_eq!(rt; area[2], 5);
        Ok(())
    }

    #[test]
    fn line_fills_and_clears(rt: HostRuntime) -> Result<(), Fail> {
        let mut memory = [9u32; 8];
        let mut area = [0u32; 2];
        let mut line = LineLink::new(2, 2, &mut memory);
        line.send(FIRST_TO_SECOND, &[5, 6])?;
        line.send(SECOND_TO_FIRST, &[7])?;
        line.clear(FIRST_TO_SECOND)?;
        line.send(FIRST_TO_SECOND, &[8, 9])?;
        assert_eq!(rt; line.read(SECOND_TO_FIRST, &mut area)?, 1);
        assert_eq!(rt; area[0], 7);
        assert_eq!(rt; line.read(FIRST_TO_SECOND, &mut area)?, 2);
        assert_eq!(rt; area[1], 9);
        Ok(())
    }

    #[test]
    fn a_message_without_the_form_is_spoilt(rt: HostRuntime) -> Result<(), Fail> {
        let mut memory = [0u32; 44];
        let mut area = [0u32; 8];
        let mut cells = CellLink::new(2, 10, &mut memory);
        cells.send(FIRST_TO_SECOND, &[3, 1, 0])?;
        let mut trim = Trim::new(&mut cells);
        assert_eq!(rt; trim.waiting(FIRST_TO_SECOND)?, true);
        let Err(fault) = trim.read(FIRST_TO_SECOND, &mut area) else {
            return Err(Fail::new("a spoilt message was read"));
        };
        assert_eq!(rt; fault.number(), 14);
        Ok(())
    }

    #[test]
    fn without_room_no_ranks(rt: HostRuntime) {
        let mut memory = [0u32; 7];
        let line = LineLink::new(2, 2, &mut memory);
        assert_eq!(rt; line.ranks(), 0);
        let mut memory = [0u32; 11];
        let cells = CellLink::new(2, 2, &mut memory);
        assert_eq!(rt; cells.ranks(), 0);
    }
}
