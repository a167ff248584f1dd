//! `compile`: a source is compiled, and its object stored.
ghost use Rattle.std.specs.Prelude.{IsTrue};
ghost use Rattle.ds2_compile.specs.AnswersOfTexts.{SourcesRead};
ghost use Rattle.ds2_answer.specs.Words.{is_source};
ghost use Rattle.ds2_store_steps.specs.Halts.{CausedByStore, InSession};
ghost use Rattle.ds2_commands.specs.CommandOutcomes.{DoesSource, compiles};

use crate::sources::load_source;
use crate::storing::store_loaded;
use ds2_base::Text;
use ds2_outside::Store;
use ds2_store_steps::{Halt, Session};

/// `compile`: compiles a source and stores its object.
pub(crate) fn compile_source<S: Store>(session: &mut Session<S>, source: &Text) -> Result<(), Halt>
    requires { IsTrue (is_source source.now) }
    ensures does { (sources : SourcesRead) → InSession S.files (DoesSource sources source.now (compiles source.now)) session.old result session.new }
    ensures cause { CausedByStore S.read_faults S.write_faults session.old result session.new }
{
    let loaded = load_source(session, source)?;
    store_loaded(session, source, &loaded.object)
}
