// Bars over a floor, asked as a planner asks them.
#![tactic(auto)]

use refusals::Refusal;

// 0 where the call was granted, else the number of the refusal: tests expect the numbers that the rules give.
pub fn number<T: Drop>(answer: Result<T, Refusal>) -> u8 {
    answer.err().map_or(0, Refusal::number)
}

#[cfg(test)]
mod tests {
    use super::number;
    use bars::{Bars, MOST_BARS};
    use floor::Floor;
    use site::Site;
    use site_tests::times;
    use tables::{Cell, FloorHead};

    #[test]
    fn bars_fill_up(rt: HostRuntime) {
        let mut cells = [Cell::Open(10); 66];
        let mut bars = Bars::new(Floor::new(
            FloorHead {
                rows: 33,
                columns: 2,
                free: 10,
            },
            &mut cells,
        ));
        for segment in 0..MOST_BARS {
            assert_eq!(rt; number(bars.bar(segment as u16)), 0);
        }
        assert_eq!(rt; number(bars.bar(66)), 3);
        assert_eq!(rt; number(bars.bar(64)), 9);
        assert_eq!(rt; number(bars.bar(63)), 0);
        assert_eq!(rt; [bars.is_barred(63), bars.is_barred(64)], [true, false]);
    }

    #[test]
    fn bars_over_bars(rt: HostRuntime) {
        let mut cells = [Cell::Open(10); 4];
        let mut below = Bars::new(Floor::new(
            FloorHead {
                rows: 2,
                columns: 2,
                free: 10,
            },
            &mut cells,
        ));
        assert_eq!(rt; number(below.bar(1)), 0);
        let mut bars = Bars::new(below);
        assert_eq!(rt; number(bars.bar(2)), 0);
        assert_eq!(rt; [bars.is_barred(1), bars.is_barred(2)], [false, true]);
        assert_eq!(rt;
            [bars.settable(0), bars.settable(1), bars.settable(2)],
            [Some(true), Some(false), Some(false)]
        );
        assert_eq!(rt;
            [bars.close(1), bars.close(2), bars.close(3)],
            [false, false, true]
        );
        assert_eq!(rt; times(&bars), [Some(10), Some(0), Some(0), Some(0)]);
    }
}
