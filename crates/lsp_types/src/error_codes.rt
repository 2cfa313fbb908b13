//! The errors that requests are answered with.
ghost use Rattle.std.specs.Prelude.{◌≡◌};

/// Why a request is refused (JSON-RPC 2.0, "Error object"; LSP 3.17, "ErrorCodes").
#[derive(Clone, Copy, Debug, PartialEq, Eq)]
pub enum ErrorCode {
    /// A body is no JSON, or no body could be found.
    ParseError,
    InvalidRequest,
    MethodNotFound,
    InvalidParams,
    ServerNotInitialized,
    RequestCancelled,
    ContentModified,
    TooManyWaiting,
}

impl ErrorCode {
    ghost use Rattle.lsp_types.specs.Bodies.{error_number, error_message};

    pub fn number(self) -> i32
        ensures { result ≡ error_number self }
    {
        match self {
            ErrorCode::ParseError => -32700,
            ErrorCode::InvalidRequest => -32600,
            ErrorCode::MethodNotFound => -32601,
            ErrorCode::InvalidParams => -32602,
            ErrorCode::ServerNotInitialized => -32002,
            ErrorCode::RequestCancelled => -32800,
            ErrorCode::ContentModified => -32801,
            ErrorCode::TooManyWaiting => -32803,
        }
    }

    pub fn message(self) -> &'static str
        ensures { result.now ≡ error_message self }
    {
        match self {
            ErrorCode::ParseError => "parse error",
            ErrorCode::InvalidRequest => "invalid request",
            ErrorCode::MethodNotFound => "method not found",
            ErrorCode::InvalidParams => "invalid params",
            ErrorCode::ServerNotInitialized => "server not initialized",
            ErrorCode::RequestCancelled => "request cancelled",
            ErrorCode::ContentModified => "content modified",
            ErrorCode::TooManyWaiting => "too many waiting requests",
        }
    }
}
