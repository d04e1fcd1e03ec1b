//! The session that a caller holds.
ghost use Rattle.std.specs.Prelude.{◌≡◌, IsTrue, None, Option, Some, is_some};
ghost use Rattle.zebludor_program.specs.Owned.{owns_session};
ghost use Rattle.zebludor_program.specs.declared.session.OpenSession.{OpenSession as SessionValue};

use crate::parts::Parts;
use crate::session::OpenSession;
use std::alloc::Global;
use std::marker::Model;

/// A session, or none. It is as large as a pointer and a flag, so that callers keep it in their own memory.
#[repr(C)]
#[derive(Drop)]
pub struct Handle {
    at: *mut u8,
    is_there: bool,
    pub ghost session: { Option SessionValue },
    pub ghost told: { is_there ≡ is_some session },
}

impl Model for Handle {
    ghost also_owns = { λ h. owns_session h.session h.at };
}

impl Handle {
    /// The handle of a caller that has no session: before the first, after its end, and while a call works on it.
    pub(crate) fn none() -> Handle
        ensures { result.session ≡ None }
    {
        Handle {
            at: std::ptr::null_mut(),
            is_there: false,
        }
    }

    /// The handle with which a caller outside keeps this session, and owns it until a call takes it out or ends it.
    pub(crate) fn holding(session: Parts<OpenSession, Global>) -> Handle
        ensures { result.session ≡ Some session.value }
    {
        let Parts { ptr, alloc: _ } = session;
        Handle {
            at: ptr as *mut u8,
            is_there: true,
        }
    }

    /// Whether there is a session in the handle, and the handle again: a call asks before it takes the session out.
    pub(crate) fn with_flag(self) -> (bool, Handle)
        ensures { (result.0 ≡ self.is_there) × (result.1 ≡ self) }
    {
        let Handle { at, is_there } = self;
        (is_there, Handle { at, is_there })
    }

    /// Takes the session, which must be there, out of a caller's handle, as the parts of its box.
    pub(crate) fn into_parts(self, alloc: Global) -> Parts<OpenSession, Global>
        requires { IsTrue self.is_there }
        ensures { Some result.value ≡ self.session }
    {
        let Handle { at, is_there: _ } = self;
        Parts {
            ptr: at as *mut OpenSession,
            alloc,
        }
    }
}
