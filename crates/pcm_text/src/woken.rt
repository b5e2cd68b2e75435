// The clients that a step marked awake.
ghost use Rattle.std.specs.Prelude.{◌≡◌, ◌<◌, ◌++◌, OnOk, OnErr};
ghost use Rattle.pcm_text.specs.Front.{KeepsFront};
ghost use Rattle.pcm_text.specs.Woken.{wake_text, text_where_marked};

use crate::push::push_counted;
use crate::push_text;
use std::alloc::AllocError;

fn push_where_marked(text: &mut Vec<u8>, woken: u16, client: u8) -> Result<(), AllocError>
    requires { client < 16 }
    ensures ok { OnOk result (text.new.items ≡ text.old.items ++ text_where_marked woken client) }
    ensures err { OnErr result (KeepsFront text.old.items text.new.items) }
{
    if (woken >> client) % 2 == 1 {
        push_counted(text, b" c", u64::from(client))
    } else {
        Ok(())
    }
}

// Nothing where nobody was marked.
pub(crate) fn push_woken(text: &mut Vec<u8>, woken: u16) -> Result<(), AllocError>
    ensures ok { OnOk result (text.new.items ≡ text.old.items ++ wake_text woken) }
    ensures err { OnErr result (KeepsFront text.old.items text.new.items) }
{
    if woken == 0 {
        return Ok(());
    }
    push_text(text, b" wake")?;
    'clients: for client in 0..16u8 {
        push_where_marked(text, woken, client)?;
    }
    Ok(())
}
