//! What is known of stops beforehand: whether they wait for a free processor, and at which IP they may hold.
ghost use Rattle.std.specs.Prelude.{IsTrue};
ghost use Rattle.board.specs.AwaitFree.{AllAwaitFree};
ghost use Rattle.board.specs.IpRange.{AllWithin};

use crate::watch::Watch;
use board_plain::stop::Condition;

/// Whether each of these stops holds only while the processor is free, so that a run needn't look for them between the
/// clocks of a step.
pub(crate) fn all_await_free(conditions: &[Condition]) -> bool
    ensures { IsTrue result → AllAwaitFree conditions.now }
{
    for condition in conditions {
        match condition {
            Condition::Free | Condition::At(..) => {}
            Condition::Byte(..) | Condition::Sound | Condition::Halted => return false,
        }
    }
    true
}

/// The least and the greatest IP at which one of some conditions may hold.
#[derive(Clone, Copy)]
pub(crate) struct IpRange {
    pub(crate) lowest: u16,
    pub(crate) highest: u16,
}

impl IpRange {
    /// Every IP.
    const ALL: IpRange = IpRange {
        lowest: 0,
        highest: u16::MAX,
    };

    /// The IPs at which one of these stops may hold, so that a run looks for them there only; all IPs unless each waits
    /// for a CS:IP.
    pub(crate) fn of(conditions: &[Condition]) -> IpRange
        ensures { AllWithin result conditions.now }
    {
        let mut ip_range = IpRange {
            lowest: u16::MAX,
            highest: 0,
        };
        for condition in conditions {
            let Condition::At(_, ip) = *condition else {
                return IpRange::ALL;
            };
            ip_range.lowest = ip_range.lowest.min(ip);
            ip_range.highest = ip_range.highest.max(ip);
        }
        ip_range
    }
}

impl Watch for IpRange {
    ghost use Rattle.board.specs.IpRange.{is_unwatched};

    ghost unwatched = { is_unwatched };

    /// Whether one of the stops may hold at this IP, to which a step has led.
    #[inline(always)]
    fn has(&self, ip: u16) -> bool {
        self.lowest <= ip && ip <= self.highest
    }

    /// Whether none of the stops can hold at any of `size` IPs from `start` on, so that a block there is run without
    /// looks between its steps.
    #[inline(always)]
    fn spares(&self, start: u16, size: u16) -> bool {
        self.highest < start || u32::from(start) + u32::from(size) <= u32::from(self.lowest)
    }
}
