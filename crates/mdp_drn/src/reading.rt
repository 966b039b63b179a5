ghost use Rattle.std.specs.Prelude.{◌≡◌};
ghost use Rattle.mdp_drn.specs.{Reading.{outcome}, Feeding.{Gives}};

use crate::error::DrnError;
use crate::feed::Feed;
use mdp_rows::{Model, RowRule};
use std::alloc::Global;

/// The model that the bytes read as, or the first broken rule and the line that it names.
pub fn read(alloc: Global, bytes: &[u8], rule: RowRule) -> Result<Model, DrnError>
    ensures { Gives (λ model said. model ≡ said) result (outcome rule bytes.now) }
{
    let Ok(mut feed) = Feed::new(alloc, rule) else {
        return Err(DrnError::Memory);
    };
    let _ = feed.push(bytes);
    feed.finish()
}
