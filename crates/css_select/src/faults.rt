use thiserror::Error;
use viz_base::Mem;

/// Why a text is refused as a group of selectors. Places are in bytes of the text.
#[derive(Clone, Copy, Debug, Error)]
pub enum SelFault {
    #[error("out of memory")]
    Mem,
    /// The place of the first token that no group of selectors can have there, or the text's length.
    #[error("bad selector at {0}")]
    Bad(u32),
    /// The place of the colon of the first `:lang()`, `:first-line` or `:first-letter`.
    #[error("unsupported selector at {0}")]
    Unsupported(u32),
}

impl From<Mem> for SelFault {
    ghost use Rattle.std.specs.Prelude.{◌≡◌};
    ghost use Rattle.css_select.specs.declared.faults.SelFault.TheVariants.{Mem};

    ghost from_gives = { λ _ fault. fault ≡ Mem };

    fn from(_: Mem) -> Self {
        SelFault::Mem
    }
}
