//! What every run of the loop keeps.

ghost use Rattle.std.specs.Prelude.{ℕ};
ghost use Rattle.share_base.specs.Writing.{SinkState};
ghost use Rattle.screen_config.specs.Sound.{IsSound};
ghost use Rattle.machine.specs.Held.{HasScriptButtons};
ghost use Rattle.reached_states.specs.Reaching.{Origin};
ghost use Rattle.engine_loop.specs.declared.serve_end.ServeEnd as spec;
ghost use Rattle.engine_loop.specs.Serving.{Serves};
ghost use Rattle.engine_loop.specs.Headline.{KeepsHeadline};

use hub_acts::Hub;
use server_engine::Engine;

/// A run of the loop keeps the headline, whatever its hub answers, under a configuration that was
/// read and a script whose keys go down at a script's buttons.
pub fn keeps_the_headline<E: Engine, H: Hub>()
    ensures { (o : Origin) (turns : ℕ) (end : spec.ServeEnd) (core : E) (hub hub_after : H)
        (sink sink_after : SinkState)
        → (r : Serves E.departs H.state H.leads o turns end core hub hub_after sink sink_after)
        → IsSound o.config → HasScriptButtons o.script → KeepsHeadline o end r.run r.leaves }
{}
