//! The states of the machines (RFC 4137).

ghost use Rattle.std.specs.Prelude.{◌≡◌};
ghost use Rattle.eap_packet.specs.Words.{state_word};

/// A state of one of the machines of RFC 4137, sections 4 to 7.
#[derive(Clone, Copy, PartialEq, Eq, Debug, Default)]
pub enum State {
    #[default]
    Initialize,
    Idle,
    Received,
    GetMethod,
    Method,
    Identity,
    Notification,
    Retransmit,
    SendResponse,
    Discard,
    Success,
    Failure,
    SelectAction,
    ProposeMethod,
    MethodRequest,
    SendRequest,
    Nak,
    IntegrityCheck,
    MethodResponse,
    TimeoutFailure,
    PickUpMethod,
    InitializePassthrough,
    AaaRequest,
    AaaIdle,
    AaaResponse,
    SendRequest2,
    Idle2,
    Received2,
    Retransmit2,
    Discard2,
    Success2,
    Failure2,
    TimeoutFailure2,
}

impl State {
    /// The state's name, as RFC 4137 writes it.
    pub fn word(&self) -> &'static str
        ensures { result.now ≡ state_word self.now }
    {
        match self {
            State::Initialize => "INITIALIZE",
            State::Idle => "IDLE",
            State::Received => "RECEIVED",
            State::GetMethod => "GET_METHOD",
            State::Method => "METHOD",
            State::Identity => "IDENTITY",
            State::Notification => "NOTIFICATION",
            State::Retransmit => "RETRANSMIT",
            State::SendResponse => "SEND_RESPONSE",
            State::Discard => "DISCARD",
            State::Success => "SUCCESS",
            State::Failure => "FAILURE",
            State::SelectAction => "SELECT_ACTION",
            State::ProposeMethod => "PROPOSE_METHOD",
            State::MethodRequest => "METHOD_REQUEST",
            State::SendRequest => "SEND_REQUEST",
            State::Nak => "NAK",
            State::IntegrityCheck => "INTEGRITY_CHECK",
            State::MethodResponse => "METHOD_RESPONSE",
            State::TimeoutFailure => "TIMEOUT_FAILURE",
            State::PickUpMethod => "PICK_UP_METHOD",
            State::InitializePassthrough => "INITIALIZE_PASSTHROUGH",
            State::AaaRequest => "AAA_REQUEST",
            State::AaaIdle => "AAA_IDLE",
            State::AaaResponse => "AAA_RESPONSE",
            State::SendRequest2 => "SEND_REQUEST2",
            State::Idle2 => "IDLE2",
            State::Received2 => "RECEIVED2",
            State::Retransmit2 => "RETRANSMIT2",
            State::Discard2 => "DISCARD2",
            State::Success2 => "SUCCESS2",
            State::Failure2 => "FAILURE2",
            State::TimeoutFailure2 => "TIMEOUT_FAILURE2",
        }
    }
}
