//! Reports of what is wrong with a host.

use crate::dialer::{HostWatch, Trouble};

/// Reports each trouble to the watch only once until the host has answered again.
#[derive(Debug, Drop)]
pub(crate) struct TroubleReporter<W> {
    watch: W,
    lost: bool,
    full: bool,
}

impl<W> TroubleReporter<W> {
    /// Makes a reporter that has no trouble to tell of.
    pub(crate) fn new(watch: W) -> TroubleReporter<W> {
        TroubleReporter {
            watch,
            lost: false,
            full: false,
        }
    }
}

impl<W: HostWatch> TroubleReporter<W> {
    pub(crate) fn report_trouble(&mut self, trouble: Trouble) {
        match trouble {
            Trouble::OutOfReach(_) => {
                if !self.lost {
                    self.lost = true;
                    self.watch.lost();
                }
            }
            Trouble::NoRoom => {
                if !self.full {
                    self.full = true;
                    self.watch.full();
                }
            }
            // The link gives up, and its program says why.
            _ => {}
        }
    }

    pub(crate) fn report_answer(&mut self) {
        if self.lost || self.full {
            self.lost = false;
            self.full = false;
            self.watch.back();
        }
    }
}
