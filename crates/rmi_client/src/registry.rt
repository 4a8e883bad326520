//! Calls of the registry (Java RMI Specification, 6.1).
ghost use Rattle.std.specs.Prelude.{◌≡◌, ◌≤◌, true, false, Some, None, length, Err};
ghost use Rattle.class_desc.specs.declared.field.TypeCode.TheVariants as types;
ghost use Rattle.mod_utf.specs.Utf.{utf};
ghost use Rattle.rmi_client.specs.Ends.{is_end};
ghost use Rattle.rmi_client.specs.Requests.{HearsSeen, IsNameCall, IsListCall, IsBindCall, found_in, names_in, nothing_in};

use crate::end::{ClientEnd, is_end};
use crate::requests::{bind_call, list_call, name_call};
use crate::seen::{found_in, names_in};
use crate::session::Session;
use class_desc::TypeCode;
use history::Name;
use java_shapes::LiveRef;
use method_hash::RegistryMethod;
use object_ids::Uid;
use sequence::NameList;
use wire_io::{Sink, Source};

impl<S: Source, K: Sink> Session<S, K> {
    ghost use Rattle.rmi_client.specs.Sessions.{link_of, Asks};

    /// Looks a name up in the registry: the reference for which it stands, and the identifier of the Return, by which that is acknowledged.
    ///
    /// Each end comes as at [`Session::call`], and `BadReply` with `WrongShape` exactly where the result is no reference to a remote object.
    pub fn lookup(&mut self, name: &Name) -> Result<(Uid, LiveRef), ClientEnd>
        ensures over { self.old.is_over ≡ true
            → (result ≡ Err ClientEnd.Over) × (self.new ≡ self.old) }
        ensures asks { self.old.is_over ≡ false → Asks
            (IsNameCall RegistryMethod.Lookup name.now) (HearsSeen found_in (Some types.Object))
            (link_of S.half K.half self.old) (link_of S.half K.half self.new) result }
        ensures ended { self.new.is_over ≡ is_end result }
    {
        if self.is_over {
            return Err(ClientEnd::Over);
        }
        let result = self.ask_lookup(name);
        self.is_over = is_end(&result);
        result
    }

    /// Lists the names of the registry.
    ///
    /// Each end comes as at [`Session::call`], and `BadReply` with `WrongShape` exactly where the result is no array of texts.
    pub fn list(&mut self) -> Result<NameList, ClientEnd>
        ensures over { self.old.is_over ≡ true
            → (result ≡ Err ClientEnd.Over) × (self.new ≡ self.old) }
        ensures asks { self.old.is_over ≡ false
            → Asks IsListCall (HearsSeen names_in (Some types.Array))
            (link_of S.half K.half self.old) (link_of S.half K.half self.new) result }
        ensures ended { self.new.is_over ≡ is_end result }
    {
        if self.is_over {
            return Err(ClientEnd::Over);
        }
        let result = self.ask_list();
        self.is_over = is_end(&result);
        result
    }

    /// Binds a name of the registry to a reference, which must not stand for anything yet. It is sent with the interface `java.rmi.Remote` alone.
    ///
    /// Each end comes as at [`Session::call`].
    pub fn bind(&mut self, name: &Name, reference: &LiveRef) -> Result<(), ClientEnd>
        requires { length (utf reference.now.host) ≤ 65535 }
        ensures over { self.old.is_over ≡ true
            → (result ≡ Err ClientEnd.Over) × (self.new ≡ self.old) }
        ensures asks { self.old.is_over ≡ false → Asks
            (IsBindCall name.now reference.now) (HearsSeen nothing_in None)
            (link_of S.half K.half self.old) (link_of S.half K.half self.new) result }
        ensures ended { self.new.is_over ≡ is_end result }
    {
        if self.is_over {
            return Err(ClientEnd::Over);
        }
        let result = self.ask_bind(name, reference);
        self.is_over = is_end(&result);
        result
    }

    /// Lets a name of the registry stand for nothing.
    ///
    /// Each end comes as at [`Session::call`].
    pub fn unbind(&mut self, name: &Name) -> Result<(), ClientEnd>
        ensures over { self.old.is_over ≡ true
            → (result ≡ Err ClientEnd.Over) × (self.new ≡ self.old) }
        ensures asks { self.old.is_over ≡ false → Asks
            (IsNameCall RegistryMethod.Unbind name.now) (HearsSeen nothing_in None)
            (link_of S.half K.half self.old) (link_of S.half K.half self.new) result }
        ensures ended { self.new.is_over ≡ is_end result }
    {
        if self.is_over {
            return Err(ClientEnd::Over);
        }
        let result = self.ask_unbind(name);
        self.is_over = is_end(&result);
        result
    }

    /// Sends a lookup and reads its Return.
    fn ask_lookup(&mut self, name: &Name) -> Result<(Uid, LiveRef), ClientEnd>
        ensures { Asks (IsNameCall RegistryMethod.Lookup name.now)
            (HearsSeen found_in (Some types.Object)) (link_of S.half K.half self.old)
            (link_of S.half K.half self.new) result }
    {
        match name_call(self.alloc, RegistryMethod::Lookup, name) {
            Ok(bytes) => self.find(bytes.as_slice()),
            Err(_refused) => Err(ClientEnd::OutOfMemory),
        }
    }

    /// Sends bytes and reads the reference of the Return.
    fn find(&mut self, bytes: &[u8]) -> Result<(Uid, LiveRef), ClientEnd>
        ensures { Asks (λ sent. sent ≡ bytes.now) (HearsSeen found_in (Some types.Object))
            (link_of S.half K.half self.old) (link_of S.half K.half self.new) result }
    {
        match self.exchange(bytes, Some(TypeCode::Object)) {
            Ok(answer) => found_in(self.alloc, &answer, self.at),
            Err(end) => Err(end),
        }
    }

    /// Sends a list and reads its Return.
    fn ask_list(&mut self) -> Result<NameList, ClientEnd>
        ensures { Asks IsListCall (HearsSeen names_in (Some types.Array))
            (link_of S.half K.half self.old) (link_of S.half K.half self.new) result }
    {
        match list_call(self.alloc) {
            Ok(bytes) => self.names(bytes.as_slice()),
            Err(_refused) => Err(ClientEnd::OutOfMemory),
        }
    }

    /// Sends bytes and reads the names of the Return.
    fn names(&mut self, bytes: &[u8]) -> Result<NameList, ClientEnd>
        ensures { Asks (λ sent. sent ≡ bytes.now) (HearsSeen names_in (Some types.Array))
            (link_of S.half K.half self.old) (link_of S.half K.half self.new) result }
    {
        match self.exchange(bytes, Some(TypeCode::Array)) {
            Ok(answer) => names_in(self.alloc, &answer, self.at),
            Err(end) => Err(end),
        }
    }

    /// Sends a bind and reads its Return.
    fn ask_bind(&mut self, name: &Name, reference: &LiveRef) -> Result<(), ClientEnd>
        requires { length (utf reference.now.host) ≤ 65535 }
        ensures { Asks (IsBindCall name.now reference.now) (HearsSeen nothing_in None)
            (link_of S.half K.half self.old) (link_of S.half K.half self.new) result }
    {
        match bind_call(self.alloc, name, reference) {
            Ok(bytes) => self.finish(bytes.as_slice()),
            Err(_refused) => Err(ClientEnd::OutOfMemory),
        }
    }

    /// Sends an unbind and reads its Return.
    fn ask_unbind(&mut self, name: &Name) -> Result<(), ClientEnd>
        ensures { Asks (IsNameCall RegistryMethod.Unbind name.now) (HearsSeen nothing_in None)
            (link_of S.half K.half self.old) (link_of S.half K.half self.new) result }
    {
        match name_call(self.alloc, RegistryMethod::Unbind, name) {
            Ok(bytes) => self.finish(bytes.as_slice()),
            Err(_refused) => Err(ClientEnd::OutOfMemory),
        }
    }

    /// Sends bytes and reads a Return without a result.
    fn finish(&mut self, bytes: &[u8]) -> Result<(), ClientEnd>
        ensures { Asks (λ sent. sent ≡ bytes.now) (HearsSeen nothing_in None)
            (link_of S.half K.half self.old) (link_of S.half K.half self.new) result }
    {
        match self.exchange(bytes, None) {
            Ok(_answer) => Ok(()),
            Err(end) => Err(end),
        }
    }
}
