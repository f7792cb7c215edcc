use cert_text::CertFault;
use css_syntax::SheetFault;
use lin_proof::RowFault;
use page_build::JobRefusal;
use page_media::MediaFault;
use std::alloc::AllocError;
use std::io;
use thiserror::Error;
use viz_base::Mem;
use viz_calc::Halt;

/// Why the table could not be run.
#[derive(Clone, Copy, Debug, Error)]
pub enum Fault {
    /// Want of memory.
    #[error("out of memory")]
    Mem,
    /// A line is no case.
    #[error("a line is no case")]
    NoCase,
    /// The input or the output failed.
    #[error("input or output failed")]
    Outside,
}

impl From<AllocError> for Fault {
    fn from(_: AllocError) -> Self {
        Fault::Mem
    }
}

impl From<Mem> for Fault {
    fn from(_: Mem) -> Self {
        Fault::Mem
    }
}

impl From<io::Error> for Fault {
    fn from(_: io::Error) -> Self {
        Fault::Outside
    }
}

impl From<serde_json::Error> for Fault {
    fn from(_: serde_json::Error) -> Self {
        Fault::NoCase
    }
}

impl From<Halt> for Fault {
    fn from(halt: Halt) -> Self {
        match halt {
            Halt::Mem => Fault::Mem,
            Halt::Coeff | Halt::Open => Fault::NoCase,
        }
    }
}

impl From<JobRefusal> for Fault {
    fn from(refusal: JobRefusal) -> Self {
        match refusal {
            JobRefusal::Mem => Fault::Mem,
            _ => Fault::NoCase,
        }
    }
}

impl From<MediaFault> for Fault {
    fn from(fault: MediaFault) -> Self {
        match fault {
            MediaFault::Mem => Fault::Mem,
            _ => Fault::NoCase,
        }
    }
}

impl From<CertFault> for Fault {
    fn from(fault: CertFault) -> Self {
        match fault {
            CertFault::Mem => Fault::Mem,
            CertFault::Grammar(_) => Fault::NoCase,
        }
    }
}

impl From<SheetFault> for Fault {
    fn from(fault: SheetFault) -> Self {
        match fault {
            SheetFault::Mem => Fault::Mem,
            _ => Fault::NoCase,
        }
    }
}

impl From<RowFault> for Fault {
    fn from(fault: RowFault) -> Self {
        match fault {
            RowFault::Mem => Fault::Mem,
            RowFault::Coeff => Fault::NoCase,
        }
    }
}
